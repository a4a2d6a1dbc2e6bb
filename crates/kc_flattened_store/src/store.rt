// A store that means flattened files.
ghost use Rattle.std.specs.Prelude.{◌≡◌, ◌<◌, ◌^◌, ℕ, List, Some, None, IsSome, IfSome};
ghost use Rattle.std.proofs.Props.{props};
ghost use Rattle.kc_outside.specs.declared.store.Slot.TheVariants.{Dump};
ghost use Rattle.kc_outside.specs.Files.{content};
ghost use Rattle.kc_flattened.specs.declared.fault.FlatFault.{FlatFault};
ghost use Rattle.kc_flattened_store.specs.declared.shape.FlatShape.{FlatShape};
ghost use Rattle.kc_flattened_store.specs.declared.stop.FlattenedFault.TheVariants as as_fault;
ghost use Rattle.kc_flattened_store.specs.Faults.{refusal};
ghost use Rattle.kc_flattened_store.specs.Seen.{is_dump, seen_bytes};
ghost use Rattle.kc_flattened_store.specs.Shapes.{file_size, shape_bytes, shape_size};

use crate::calls::Calls;
use crate::opening::open_shape;
use crate::reading::{read_seen, seen_size};
use crate::shape::FlatShape;
use crate::stop::FlattenedFault;
use kc_outside::{Failed, Slot, Store};
use std::alloc::Global;

/// A store over a store. Slot Dump has the file that a flattened file means; every other file, and each file in another slot, is as
/// it is in the store below.
#[derive(Drop)]
pub struct Flattened<S: Store + Drop> {
    alloc: Global,
    store: S,
    // What is seen in slot Dump.
    shape: Option<FlatShape>,
    // Whether its size was told.
    is_learnt: bool,
    calls: Calls,
    ghost known: { (s : FlatShape) → shape ≡ Some s → S.sizes store Dump ≡ Some (file_size s) } by { Prim.hlevel props },
    ghost fits: { (s : FlatShape) → shape ≡ Some s → shape_size s < 2 ^ 64 } by { Prim.hlevel props },
    ghost told: { (s : FlatShape) (bytes : List ℕ) → shape ≡ Some s → content (S.files store) Dump (S.opened store Dump) ≡ Some bytes → seen_bytes bytes ≡ Some (shape_bytes s bytes) } by { Prim.hlevel props },
    // A flattened file that is refused has the fault that is told; and nothing is put down to the store that didn't fail, or to want of memory
    // where a file is seen.
    ghost refused: { (fault : FlatFault) (bytes : List ℕ) → calls.last ≡ Some (as_fault.Refused fault) → content (S.files store) Dump (S.opened store Dump) ≡ Some bytes → refusal bytes ≡ Some fault } by { Prim.hlevel props },
    ghost failed: { calls.last ≡ Some as_fault.Store → 0 < S.faults store } by { Prim.hlevel props },
    ghost wanted: { (s : FlatShape) → calls.last ≡ Some as_fault.NoMemory → shape ≡ Some s → ⊥ } by { Prim.hlevel props },
    ghost held: { (s : FlatShape) → shape ≡ Some s → IsSome (S.opened store Dump) } by { Prim.hlevel props },
}

impl<S: Store + Drop> Flattened<S> {
    ghost use Rattle.kc_outside.specs.declared.store.Slot.{Slot};
    ghost use Rattle.kc_flattened_store.specs.Seen.{seen_files};

    /// A store over a store. It holds no file in slot Dump yet, and no call was made of it.
    pub fn new(alloc: Global, store: S) -> Flattened<S>
        ensures files { ⟦<Flattened<S> as Store>⟧.files result ≡ seen_files (S.files store) }
        ensures may { (slot : Slot) (name : List ℕ) → S.may store slot name → ⟦<Flattened<S> as Store>⟧.may result slot name }
        ensures faults { ⟦<Flattened<S> as Store>⟧.faults result ≡ 0 }
        ensures asked { ⟦<Flattened<S> as Store>⟧.asked result ≡ 0 }
    {
        Flattened {
            alloc,
            store,
            shape: None,
            is_learnt: false,
            calls: Calls::new(),
        }
    }

    /// Why the last call that failed did, if one did since the dump was opened.
    pub fn fault(&self) -> Option<FlattenedFault>
        ensures kept { result ≡ self.now.calls.last }
        // A fault of the flattened file is what the bytes of the file in slot Dump say.
        ensures refused { (fault : FlatFault) → result ≡ Some (as_fault.Refused fault)
            → IfSome (content (S.files self.now.store) Dump (S.opened self.now.store Dump)) (λ bytes. refusal bytes ≡ Some fault) }
        // The store below is named only where a call of it failed, and want of memory only where the dump wasn't opened.
        ensures store { result ≡ Some as_fault.Store → 0 < S.faults self.now.store }
        ensures memory { result ≡ Some as_fault.NoMemory → ⟦<Flattened<S> as Store>⟧.opened self.now Dump ≡ None }
    {
        self.calls.last
    }
}

// Whether a slot is the dump's.
fn is_dump(slot: Slot) -> bool
    ensures { result ≡ is_dump slot }
{
    match slot {
        Slot::Dump => true,
        Slot::Btf | Slot::Map | Slot::Plan | Slot::Report | Slot::Module => false,
    }
}

impl<S: Store + Drop> Store for Flattened<S> {
    ghost use Rattle.kc_flattened_store.specs.Seen.{seen_files, seen_opened, seen_sizes, learnt_size};
    ghost use Rattle.kc_flattened_store.specs.StoreLaws.{sizes_opened, sizes_fit, sizes_length};

    ghost may = { λ v. S.may v.store };

    ghost files = { λ v. seen_files (S.files v.store) };

    ghost opened = { λ v. seen_opened v.shape (S.opened v.store) };

    ghost sizes = { λ v. seen_sizes (learnt_size v.is_learnt v.shape) (S.sizes v.store) };

    ghost faults = { λ v. v.calls.faults };

    ghost asked = { λ v. v.calls.asked };

    ghost size_opened = { λ v slot known. sizes_opened v.is_learnt v.shape (S.opened v.store) (S.sizes v.store) slot v.held (S.size_opened v.store slot) known };

    ghost size_fits = { λ v slot n known. sizes_fit v.is_learnt v.shape (S.sizes v.store) slot n v.fits (S.size_fits v.store slot n) known };

    ghost size_length = { λ v slot n known. sizes_length v.is_learnt v.shape (S.files v.store) (S.opened v.store) (S.sizes v.store) slot n v.known v.told (λ m. S.size_length v.store Dump m) (S.size_length v.store slot n) known };

    /// Puts the file of a name into a slot. In slot Dump the records of a flattened file are read once.
    ///
    /// # Errors
    ///
    /// The store failed, or a flattened file is refused, or no memory was left: `fault` says which.
    fn open_file(&mut self, slot: Slot, name: &str) -> Result<(), Failed> {
        self.calls.ask();
        if is_dump(slot) {
            self.shape = None;
            self.is_learnt = false;
            match open_shape(self.alloc, &mut self.store, name) {
                Ok(shape) => {
                    self.shape = Some(shape);
                    self.calls.forget();
                    Ok(())
                }
                Err(fault) => Err(self.calls.fail(fault)),
            }
        } else {
            match self.store.open_file(slot, name) {
                Ok(()) => Ok(()),
                Err(Failed) => Err(self.calls.fail(FlattenedFault::Store)),
            }
        }
    }

    /// The length of the file in a slot, in bytes: of a flattened file that of the file that it means.
    ///
    /// # Errors
    ///
    /// The store failed.
    fn size(&mut self, slot: Slot) -> Result<u64, Failed> {
        self.calls.ask();
        if is_dump(slot) {
            self.is_learnt = true;
            Ok(seen_size(&self.store, &self.shape))
        } else {
            match self.store.size(slot) {
                Ok(size) => Ok(size),
                Err(Failed) => Err(self.calls.fail(FlattenedFault::Store)),
            }
        }
    }

    /// Fills the buffer with the file's bytes from the file offset `off` on: of a flattened file those of the file that it
    /// means.
    ///
    /// # Errors
    ///
    /// The store failed. The buffer then holds any bytes.
    fn read_at(&mut self, slot: Slot, off: u64, buf: &mut [u8]) -> Result<(), Failed> {
        self.calls.ask();
        if is_dump(slot) {
            match read_seen(&mut self.store, &self.shape, off, buf) {
                Ok(()) => Ok(()),
                Err(Failed) => Err(self.calls.fail(FlattenedFault::Store)),
            }
        } else {
            match self.store.read_at(slot, off, buf) {
                Ok(()) => Ok(()),
                Err(Failed) => Err(self.calls.fail(FlattenedFault::Store)),
            }
        }
    }
}
