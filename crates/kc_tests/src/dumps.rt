// What tests of dumps are made of.
ghost use Rattle.std.specs.Prelude.{◌≡◌, Some, IfOk};
ghost use Rattle.std.specs.Bool.{OnTrue};
ghost use Rattle.kc_outside.specs.MemStore.{size_in};
ghost use Rattle.kc_phys.specs.Stored.{AreInside};

use kc_outside::{MemStore, Slot, Store};
use kc_word::Segment;
use std::test::Fail;

// The store whose dump is opened, and the dump's size.
pub fn opened(store: MemStore) -> Result<(MemStore, u64), Fail>
    ensures { IfOk result (λ r. size_in r.0 Slot.Dump ≡ Some r.1) }
{
    let mut store = store;
    store.open_file(Slot::Dump, "dump")?;
    let size = store.size(Slot::Dump)?;
    Ok((store, size))
}

// Whether the segments lie in the dump.
pub fn fit(store: &MemStore, segments: &[Segment], size: u64) -> bool
    requires { size_in store.now Slot.Dump ≡ Some size }
    ensures { OnTrue result (AreInside (size_in store.now Slot.Dump) segments.now) }
{
    let _ = store;
    segments
        .iter()
        .all(|s| s.offset <= size && s.filesz <= size - s.offset)
}
