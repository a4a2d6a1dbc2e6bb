// PageRoom for pages.
ghost use Rattle.std.specs.Prelude.{◌≡◌, ◌≤◌, vec_len, All, IfOk};
ghost use Rattle.kc_plain_store.specs.Kept.{IsEmpty};

use crate::place::{KeptPages, PagePlace, PageRoom};
use kc_plain::{PAGE_BYTES, Unpacker};
use kc_word::NoMemory;
use std::alloc::Global;

// How many pages are kept.
const PLACES: usize = 256;

// An empty place.
fn new_place(alloc: Global) -> Result<PagePlace, NoMemory>
    ensures { IfOk result IsEmpty }
{
    Ok(PagePlace {
        number: None,
        bytes: vec![in alloc; 0; PAGE_BYTES]?,
    })
}

// Empty places.
fn new_places(alloc: Global) -> Result<Vec<PagePlace>, NoMemory>
    ensures empty { IfOk result (λ places. All IsEmpty places.items) }
    ensures many { IfOk result (λ places. vec_len places ≡ 256) }
{
    let mut places = Vec::new(alloc);
    while places.len() < PLACES {
        let place = new_place(alloc)?;
        places.push(place)?;
    }
    Ok(places)
}

impl KeptPages {
    /// PageRoom for 256 pages, of which none is kept.
    ///
    /// # Errors
    ///
    /// `NoMemory` where no memory is left.
    pub(crate) fn new(alloc: Global) -> Result<KeptPages, NoMemory>
        ensures { IfOk result (λ kept. All IsEmpty kept.places.items) }
    {
        Ok(KeptPages {
            places: new_places(alloc)?,
            room: PageRoom {
                unpacker: Unpacker::new(alloc)?,
                packed: [0; PAGE_BYTES],
            },
        })
    }
}

// Empties each place.
fn empty_places(places: &mut [PagePlace])
    ensures { All IsEmpty places.new }
{
    for place in places.iter_mut() {
        place.number = None;
    }
}

impl KeptPages {
    /// Keeps none of the pages any more.
    pub(crate) fn clear(&mut self)
        ensures { All IsEmpty self.new.places.items }
    {
        empty_places(&mut self.places);
    }
}
