// The store that a program reads dumps through.
ghost use Rattle.std.specs.Prelude.{◌≡◌, ℕ, List, IfOk};
ghost use Rattle.kc_outside.specs.declared.store.Slot.{Slot};
ghost use Rattle.kc_any_dump.specs.Files.{shown_files};

use kc_flattened_store::Flattened;
use kc_outside::Store;
use kc_plain_store::PlainView;
use kc_word::NoMemory;
use std::alloc::Global;

/// A store over a store. Slot Dump has the file that a flattened file means, and of a compressed dump the plain core file that stands
/// for it; every other file, and each file in another slot, is as it is in the store below.
pub type AnyDump<S> = PlainView<Flattened<S>>;

/// A store over a store, of which no call was made.
///
/// # Errors
///
/// `NoMemory` where no memory is left: it takes a little more than 1 MiB.
pub fn any_dump<S: Store + Drop>(
    alloc: Global,
    store: S,
) -> Result<PlainView<Flattened<S>>, NoMemory>
    ensures files { IfOk result (λ dump. ⟦<PlainView<Flattened<S>> as Store>⟧.files dump ≡ shown_files (S.files store)) }
    ensures may { IfOk result (λ dump. (slot : Slot) (name : List ℕ) → S.may store slot name → ⟦<PlainView<Flattened<S>> as Store>⟧.may dump slot name) }
    ensures faults { IfOk result (λ dump. ⟦<PlainView<Flattened<S>> as Store>⟧.faults dump ≡ 0) }
    ensures asked { IfOk result (λ dump. ⟦<PlainView<Flattened<S>> as Store>⟧.asked dump ≡ 0) }
{
    PlainView::new(alloc, Flattened::new(alloc, store))
}
