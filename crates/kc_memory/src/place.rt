// The places of what was read.
ghost use Rattle.std.specs.Prelude.{◌≡◌, option_to_list};
ghost use Rattle.kc_memory.specs.Places.{place_of, entry_places};

use crate::miss::Miss;
use crate::words::{Place, VWord};

/// The place of a word. It takes no memory.
pub fn place_of(word: &VWord) -> Place
    ensures { result ≡ place_of word.now }
{
    Place {
        va: Some(word.va),
        pa: word.pa,
        off: word.off,
        value: word.value,
    }
}

/// The place of the entry that was refused, or `None` exactly where a miss has none. It takes no memory.
pub fn entry_place(miss: &Miss) -> Option<Place>
    ensures { option_to_list result ≡ entry_places miss.now.pa miss.now.entry }
{
    let entry = miss.entry?;
    Some(Place {
        va: None,
        pa: miss.pa,
        off: entry.off,
        value: entry.value,
    })
}
