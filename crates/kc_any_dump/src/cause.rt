// Why a dump can't be read.
ghost use Rattle.std.specs.Prelude.{◌≡◌, ℕ, List, Option, Some, IsSome, IfSome, option_and_then};
ghost use Rattle.kc_outside.specs.declared.store.Slot.TheVariants.{Dump};
ghost use Rattle.kc_outside.specs.Files.{content};
ghost use Rattle.kc_plain_store.specs.Faults.{is_complete};
ghost use Rattle.kc_plain_store.specs.Seen.{seen_bytes};
ghost use Rattle.kc_any_dump.specs.Causes.{cause_status, flattened_cause};

use kc_command::Status;
use kc_flattened::FlatFault;
use kc_flattened_store::{Flattened, FlattenedFault};
use kc_kdump::KdumpFault;
use kc_outside::Store;
use kc_plain_store::{BadPage, PlainView, ViewFault};

/// Why a dump can't be read, where it isn't that a file couldn't.
#[derive(Clone, Copy)]
pub enum Cause {
    /// The flattened file isn't as it has to be.
    Flattened(FlatFault),
    /// The compressed dump isn't as it has to be.
    Compressed(KdumpFault),
    /// A page of it can't be had.
    Page(BadPage),
    /// No memory was left to open it.
    Memory,
}

// Why the store below failed, where it is a flattened file that did.
fn flattened_cause(fault: Option<FlattenedFault>) -> Option<Cause>
    ensures { result ≡ flattened_cause fault }
{
    match fault? {
        FlattenedFault::Store => None,
        FlattenedFault::Refused(fault) => Some(Cause::Flattened(fault)),
        FlattenedFault::NoMemory => Some(Cause::Memory),
    }
}

/// A store that tells why a dump can't be read.
pub trait TellsCause: Store {
    ghost use Rattle.kc_any_dump.specs.declared.cause.Cause.{Cause};
    ghost use Rattle.kc_any_dump.specs.Causes.{IsMeant, IsTrueOf};

    /// The bytes of the file in slot Dump as it is, or `None` where they aren't told.
    ghost file: { Self → Option (List ℕ) };

    /// Those of a file that isn't flattened, and of a flattened one those that it means; or `None` where they aren't told, or it is refused.
    ghost held: { Self → Option (List ℕ) };

    /// Why the last call failed that did since the dump was opened, where the dump's form has to do with it.
    ghost told: { Self → Option Cause };

    /// Why the last call failed that did since the dump was opened, where the dump's form has to do with it.
    fn cause(&self) -> Option<Cause>
        ensures { result ≡ told self.now };

    /// Whether the dump lacks no page at its end.
    fn is_whole(&self) -> bool
        ensures { (name : List ℕ) → Self.opened self.now Dump ≡ Some name → IfSome (held self.now) (λ bytes. result ≡ is_complete bytes) };

    /// The cause is what the bytes say.
    ghost is_true: { (store : Self) → IsTrueOf (told store) (file store) (held store) };

    /// What is held is what the file means.
    ghost means: { (store : Self) → IsMeant (file store) (held store) };

    /// What is shown of a dump is the plain core file that stands for its bytes.
    ghost shown: { (store : Self) → IsSome (Self.opened store Dump)
        → content (Self.files store) Dump (Self.opened store Dump) ≡ option_and_then seen_bytes (held store) };
}

impl<S: Store + Drop> TellsCause for PlainView<Flattened<S>> {
    ghost use Rattle.kc_any_dump.specs.Causes.{dump_cause};
    ghost use Rattle.kc_any_dump.specs.Laws.{cause_true, file_meant, held_seen};

    ghost file = { λ v. content (S.files v.store.store) Dump (S.opened v.store.store Dump) };

    ghost held = { λ v. content (⟦<Flattened<S> as Store>⟧.files v.store) Dump (⟦<Flattened<S> as Store>⟧.opened v.store Dump) };

    ghost told = { λ v. dump_cause v.calls.last v.store.calls.last };

    ghost is_true = { λ v. cause_true v.calls.last v.store.calls.last (content (S.files v.store.store) Dump (S.opened v.store.store Dump)) (content (⟦<Flattened<S> as Store>⟧.files v.store) Dump (⟦<Flattened<S> as Store>⟧.opened v.store Dump)) v.store.refused v.refused v.bad };

    ghost means = { λ v. file_meant v.store.shape (S.files v.store.store) (S.opened v.store.store Dump) };

    ghost shown = { λ v there. held_seen v.shape (⟦<Flattened<S> as Store>⟧.files v.store) (⟦<Flattened<S> as Store>⟧.opened v.store Dump) there };

    fn cause(&self) -> Option<Cause> {
        match self.fault()? {
            ViewFault::Store => flattened_cause(self.store().fault()),
            ViewFault::Refused(fault) => Some(Cause::Compressed(fault)),
            ViewFault::Page(bad) => Some(Cause::Page(bad)),
            ViewFault::NoMemory => Some(Cause::Memory),
        }
    }

    fn is_whole(&self) -> bool {
        PlainView::is_whole(self)
    }
}

// The status that a program ends with.
pub(crate) fn status_of(cause: Cause) -> Status
    ensures { result ≡ cause_status cause }
{
    match cause {
        Cause::Flattened(_) | Cause::Compressed(_) => Status::Refused,
        Cause::Page(_) => Status::StoreFailed,
        Cause::Memory => Status::OutOfMemory,
    }
}
