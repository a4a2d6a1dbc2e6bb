// A store that shows a compressed dump as the plain core file that stands for it.
ghost use Rattle.std.specs.Prelude.{◌≡◌, ◌<◌, ◌^◌, ℕ, List, Some, None, IsSome, IfSome, All};
ghost use Rattle.std.proofs.Props.{props};
ghost use Rattle.kc_outside.specs.declared.store.Slot.TheVariants.{Dump};
ghost use Rattle.kc_outside.specs.Files.{content};
ghost use Rattle.kc_kdump.specs.declared.fault.KdumpFault.{KdumpFault};
ghost use Rattle.kc_plain_store.specs.declared.plain_core.PlainCore.{PlainCore};
ghost use Rattle.kc_plain_store.specs.declared.shape.PlainShape.{PlainShape};
ghost use Rattle.kc_plain_store.specs.declared.shape.PlainShape.TheVariants.{Plain};
ghost use Rattle.kc_plain_store.specs.declared.stop.BadPage.{BadPage};
ghost use Rattle.kc_plain_store.specs.declared.stop.ViewFault.TheVariants as as_fault;
ghost use Rattle.kc_plain_store.specs.Faults.{container_of, is_complete, is_complete_in, page_fault, refusal, shape_container};
ghost use Rattle.kc_plain_store.specs.Kept.{IsKept};
ghost use Rattle.kc_plain_store.specs.Seen.{is_dump, seen_bytes};
ghost use Rattle.kc_plain_store.specs.Shapes.{file_size, shape_bytes, shape_size};

use crate::calls::Calls;
use crate::opening::open_shape;
use crate::place::KeptPages;
use crate::shape::PlainShape;
use crate::shown::{read_shown, shown_size};
use crate::stop::ViewFault;
use kc_outside::{Failed, Slot, Store};
use kc_word::NoMemory;
use std::alloc::Global;

/// A store over a store. Slot Dump shows a compressed dump as its plain core file; every other file, and each file in another
/// slot, is shown as it is.
#[derive(Drop)]
pub struct PlainView<S: Store + Drop> {
    alloc: Global,
    store: S,
    // What slot Dump shows.
    shape: Option<PlainShape>,
    // Whether its size was told.
    is_learnt: bool,
    // Pages of it.
    kept: KeptPages,
    calls: Calls,
    ghost known: { (s : PlainShape) → shape ≡ Some s → S.sizes store Dump ≡ Some (file_size s) } by { Prim.hlevel props },
    ghost fits: { (s : PlainShape) → shape ≡ Some s → shape_size s < 2 ^ 64 } by { Prim.hlevel props },
    ghost told: { (s : PlainShape) (bytes : List ℕ) → shape ≡ Some s → content (S.files store) Dump (S.opened store Dump) ≡ Some bytes → seen_bytes bytes ≡ Some (shape_bytes s bytes) } by { Prim.hlevel props },
    ghost pages: { (core : PlainCore) → shape ≡ Some (Plain core) → All (IsKept (content (S.files store) Dump (S.opened store Dump)) core.layout) kept.places.items } by { Prim.hlevel props },
    ghost container: { (s : PlainShape) (bytes : List ℕ) → shape ≡ Some s → content (S.files store) Dump (S.opened store Dump) ≡ Some bytes → container_of bytes ≡ shape_container s } by { Prim.hlevel props },
    ghost refused: { (fault : KdumpFault) (bytes : List ℕ) → calls.last ≡ Some (as_fault.Refused fault) → content (S.files store) Dump (S.opened store Dump) ≡ Some bytes → refusal bytes ≡ Some fault } by { Prim.hlevel props },
    ghost bad: { (bad : BadPage) (bytes : List ℕ) → calls.last ≡ Some (as_fault.Page bad) → content (S.files store) Dump (S.opened store Dump) ≡ Some bytes → page_fault bytes bad.number ≡ Some bad.fault } by { Prim.hlevel props },
    // Nothing is put down to the store that didn't fail, or to want of memory where a file is shown.
    ghost failed: { calls.last ≡ Some as_fault.Store → 0 < S.faults store } by { Prim.hlevel props },
    ghost wanted: { (s : PlainShape) → calls.last ≡ Some as_fault.NoMemory → shape ≡ Some s → ⊥ } by { Prim.hlevel props },
    ghost held: { (s : PlainShape) → shape ≡ Some s → IsSome (S.opened store Dump) } by { Prim.hlevel props },
}

impl<S: Store + Drop> PlainView<S> {
    ghost use Rattle.std.specs.Prelude.{IfOk};
    ghost use Rattle.kc_outside.specs.declared.store.Slot.{Slot};
    ghost use Rattle.kc_plain_store.specs.Seen.{seen_files};

    /// A view over a store. It shows nothing yet, and no call was made of it.
    ///
    /// # Errors
    ///
    /// `NoMemory` where no memory is left: it takes a little more than 1 MiB.
    pub fn new(alloc: Global, store: S) -> Result<PlainView<S>, NoMemory>
        ensures files { IfOk result (λ view. ⟦<PlainView<S> as Store>⟧.files view ≡ seen_files (S.files store)) }
        ensures may { IfOk result (λ view. (slot : Slot) (name : List ℕ) → S.may store slot name → ⟦<PlainView<S> as Store>⟧.may view slot name) }
        ensures faults { IfOk result (λ view. ⟦<PlainView<S> as Store>⟧.faults view ≡ 0) }
        ensures asked { IfOk result (λ view. ⟦<PlainView<S> as Store>⟧.asked view ≡ 0) }
    {
        let kept = KeptPages::new(alloc)?;
        Ok(PlainView {
            alloc,
            store,
            shape: None,
            is_learnt: false,
            kept,
            calls: Calls::new(),
        })
    }

    /// The store below, which tells more of a failure that was its own.
    pub fn store(&self) -> &S
        ensures { result.now ≡ self.now.store }
    {
        &self.store
    }

    /// Whether slot Dump shows all pages that the dump's bitmaps speak of. An incomplete dump lacks some at its end, and they are shown as
    /// those that were left out.
    pub fn is_whole(&self) -> bool
        ensures { (name : List ℕ) → ⟦<PlainView<S> as Store>⟧.opened self.now Dump ≡ Some name
            → IfSome (content (S.files self.now.store) Dump (S.opened self.now.store Dump)) (λ bytes. result ≡ is_complete bytes) }
    {
        match &self.shape {
            Some(shape) => is_complete(shape),
            None => true,
        }
    }

    /// Why the last call that failed did, if one did since the dump was opened.
    pub fn fault(&self) -> Option<ViewFault>
        ensures kept { result ≡ self.now.calls.last }
        // It is what the bytes of the file in slot Dump say.
        ensures refused { (fault : KdumpFault) → result ≡ Some (as_fault.Refused fault)
            → IfSome (content (S.files self.now.store) Dump (S.opened self.now.store Dump)) (λ bytes. refusal bytes ≡ Some fault) }
        ensures page { (bad : BadPage) → result ≡ Some (as_fault.Page bad)
            → IfSome (content (S.files self.now.store) Dump (S.opened self.now.store Dump)) (λ bytes. page_fault bytes bad.number ≡ Some bad.fault) }
        // The store below is named only where a call of it failed, and want of memory only where the dump wasn't opened.
        ensures store { result ≡ Some as_fault.Store → 0 < S.faults self.now.store }
        ensures memory { result ≡ Some as_fault.NoMemory → ⟦<PlainView<S> as Store>⟧.opened self.now Dump ≡ None }
    {
        self.calls.last
    }
}

// Whether a file lacks no page at its end.
fn is_complete(shape: &PlainShape) -> bool
    ensures { result ≡ is_complete_in (shape_container shape.now) }
{
    match shape {
        PlainShape::Plain(core) => core.is_whole,
        PlainShape::Whole(_) => true,
    }
}

// Whether a slot is the dump's.
fn is_dump(slot: Slot) -> bool
    ensures { result ≡ is_dump slot }
{
    match slot {
        Slot::Dump => true,
        Slot::Btf | Slot::Map | Slot::Plan | Slot::Report | Slot::Module => false,
    }
}

impl<S: Store + Drop> Store for PlainView<S> {
    ghost use Rattle.kc_plain_store.specs.Seen.{seen_files, seen_opened, seen_sizes, learnt_size};
    ghost use Rattle.kc_plain_store.specs.ViewLaws.{sizes_opened, sizes_fit, sizes_length};

    ghost may = { λ v. S.may v.store };

    ghost files = { λ v. seen_files (S.files v.store) };

    ghost opened = { λ v. seen_opened v.shape (S.opened v.store) };

    ghost sizes = { λ v. seen_sizes (learnt_size v.is_learnt v.shape) (S.sizes v.store) };

    ghost faults = { λ v. v.calls.faults };

    ghost asked = { λ v. v.calls.asked };

    ghost size_opened = { λ v slot known. sizes_opened v.is_learnt v.shape (S.opened v.store) (S.sizes v.store) slot v.held (S.size_opened v.store slot) known };

    ghost size_fits = { λ v slot n known. sizes_fit v.is_learnt v.shape (S.sizes v.store) slot n v.fits (S.size_fits v.store slot n) known };

    ghost size_length = { λ v slot n known. sizes_length v.is_learnt v.shape (S.files v.store) (S.opened v.store) (S.sizes v.store) slot n v.known v.told (λ m. S.size_length v.store Dump m) (S.size_length v.store slot n) known };

    /// Puts the file of a name into a slot. In slot Dump the bitmaps of a compressed dump are read once.
    ///
    /// # Errors
    ///
    /// The store failed, or a compressed dump is refused, or no memory was left: `fault` says which.
    fn open_file(&mut self, slot: Slot, name: &str) -> Result<(), Failed> {
        self.calls.ask();
        if is_dump(slot) {
            self.shape = None;
            self.is_learnt = false;
            self.kept.clear();
            match open_shape(self.alloc, &mut self.store, name) {
                Ok(shape) => {
                    self.shape = Some(shape);
                    self.calls.forget();
                    Ok(())
                }
                Err(fault) => Err(self.calls.fail(fault)),
            }
        } else {
            match self.store.open_file(slot, name) {
                Ok(()) => Ok(()),
                Err(Failed) => Err(self.calls.fail(ViewFault::Store)),
            }
        }
    }

    /// The length of the file in a slot, in bytes: of a compressed dump that of its plain core file.
    ///
    /// # Errors
    ///
    /// The store failed.
    fn size(&mut self, slot: Slot) -> Result<u64, Failed> {
        self.calls.ask();
        if is_dump(slot) {
            self.is_learnt = true;
            Ok(shown_size(&self.shape))
        } else {
            let answer = self.store.size(slot);
            match answer {
                Ok(bytes) => Ok(bytes),
                Err(Failed) => Err(self.calls.fail(ViewFault::Store)),
            }
        }
    }

    /// Fills the buffer with the file's bytes from the file offset `off` on. Of a compressed dump these are the bytes of its plain core
    /// file.
    ///
    /// # Errors
    ///
    /// The store failed, or a page can't be had: `fault` says which. The buffer then holds any bytes.
    fn read_at(&mut self, slot: Slot, off: u64, buf: &mut [u8]) -> Result<(), Failed> {
        self.calls.ask();
        if is_dump(slot) {
            match read_shown(&mut self.store, &self.shape, &mut self.kept, off, buf) {
                Ok(()) => Ok(()),
                Err(fault) => Err(self.calls.fail(fault)),
            }
        } else {
            match self.store.read_at(slot, off, buf) {
                Ok(()) => Ok(()),
                Err(Failed) => Err(self.calls.fail(ViewFault::Store)),
            }
        }
    }
}
