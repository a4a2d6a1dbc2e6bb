//! What lies at an address of a dump: the entries of the page tables on the way to it, the words beside it and what they
//! say, the nearest symbol; and where a dump has the words that point to an address.
#![tactic(auto)]

mod aliases;
mod entries;
mod holders;
mod laws;
mod meaning;
mod refs;
mod sight;
mod span;
mod symbol;
mod words;

pub use aliases::{Aliases, Rules, read_aliases};
pub use entries::{TableEntry, page_bytes, read_entries};
pub use holders::find_holders;
pub use laws::know_sights;
pub use meaning::{Meaning, meaning_of};
pub use refs::{FoundWord, Sought, WordPlace, Writing, find_words};
pub use sight::{Sight, read_sight, word_start};
pub use span::{Span, is_fill, span_of};
pub use symbol::{ImageMap, ImageParts, Symbol, nearest};
pub use words::{Seen, read_word, read_words};
