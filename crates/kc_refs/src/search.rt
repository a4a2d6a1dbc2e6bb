// What a search is for.

use kc_owner::CacheKey;
use kc_sight::Sought;

/// What is looked for, and what is said of it.
#[derive(Clone, Copy)]
pub struct Search<'s> {
    /// A value, and what its encoded form is made with.
    pub sought: &'s Sought,
    /// The caches whose free pointers are encoded: the line of a word that holds it encoded names one.
    pub keys: &'s [CacheKey],
    /// Whether it is told how far the search is.
    pub progress: bool,
}
