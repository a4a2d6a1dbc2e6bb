// The free objects of a slab, to be looked up.
ghost use Rattle.std.specs.Prelude.{◌≡◌, IfOk};
ghost use Rattle.kc_guard.specs.Objects.{is_free, looked_up};

use kc_found::Walked;
use kc_word::NoMemory;
use std::alloc::Global;
use std::collections::BTreeSet;
use std::marker::Model;

// The addresses of free objects, by rising address.
#[derive(Drop)]
pub(crate) struct FreeObjects {
    addresses: BTreeSet<u64>,
}

impl Model for FreeObjects {
    ghost use Rattle.std.specs.Prelude.{List, ℕ};

    ghost Value = { List ℕ };

    ghost view = { λ f. f.addresses.keys };
}

impl FreeObjects {
    // Whether an object is one of them.
    pub(crate) fn has(&self, object: u64) -> bool
        ensures { result ≡ looked_up self.now object }
    {
        self.addresses.contains(&object)
    }
}

// Those of a free list.
pub(crate) fn free_objects(alloc: Global, objects: &Walked) -> Result<FreeObjects, NoMemory>
    ensures { IfOk result (λ f. looked_up f ≡ is_free objects.now) }
{
    let mut addresses = BTreeSet::new(alloc);
    let mut i = 0;
    while i < objects.len() {
        match addresses.insert(*objects.get(i)) {
            Ok(_) => {}
            Err(_) => return Err(NoMemory),
        }
        i += 1;
    }
    Ok(FreeObjects { addresses })
}
