// What always holds of a store, for a caller to learn. These functions do nothing.
ghost use Rattle.std.specs.Prelude.{◌≡◌, ◌<◌, ◌^◌, Some, IsSome};
ghost use Rattle.kc_outside.specs.Files.{content, HasLength};

use crate::store::{Slot, Store};

/// Does nothing. A caller learns from it that a learnt size is the length of the slot's file.
pub fn know_size<S: Store>(store: &S, slot: Slot, size: u64)
    requires { S.sizes store.now slot ≡ Some size }
    ensures { HasLength (content (S.files store.now) slot (S.opened store.now slot)) size }
{}

/// Does nothing. A caller learns from it that a slot whose size is learnt holds a file.
pub fn know_learnt<S: Store>(store: &S, slot: Slot)
    requires { IsSome (S.sizes store.now slot) }
    ensures { IsSome (S.opened store.now slot) }
{}
