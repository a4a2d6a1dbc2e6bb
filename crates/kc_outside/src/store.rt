// The files that a command reads.
ghost use Rattle.std.specs.Prelude.{◌≡◌, ℕ, ◌+◌, ◌<◌, ◌≤◌, ◌^◌, List, length, Option, Some, None, IsSome, IfSome, IfOk, OnOk, OnErr};
ghost use Rattle.std.specs.Option.{ForSome};
ghost use Rattle.kc_outside.specs.declared.store.Slot.{Slot};
ghost use Rattle.kc_outside.specs.Counts.{Rose, next_count};
ghost use Rattle.kc_outside.specs.Files.{Files, content, named, OthersStay, HasLength, HasPart};

/// The places of a command's files. Each holds at most one file at a time.
#[derive(Clone, Copy, Debug, PartialEq, Eq)]
pub enum Slot {
    /// The dump.
    Dump,
    /// The kernel's types.
    Btf,
    /// The kernel's symbol map.
    Map,
    /// The plan of an audit.
    Plan,
    /// A certificate, or a report to be checked.
    Report,
    /// The types of a module.
    Module,
}

/// A call of the outside failed. The count of faults of the object that was called rose.
#[derive(Clone, Copy, Debug, PartialEq, Eq)]
pub struct Failed;

/// A store of files. A name is put into a slot, its size is learnt, and then its bytes are read. No call
/// changes a file.
///
/// A count rises in a call where it is greater after the call than before it; at 2^64 - 1 it stands
/// still, and counts as risen.
pub trait Store {
    /// Whether a name may be asked for in a slot.
    ghost may: { Self → Slot → List ℕ → Type 0 };

    /// What each name stands for in each slot, or `None` where that isn't told.
    ghost files: { Self → Option Files };

    /// The name that a slot holds, or another that stands for the same bytes there.
    ghost opened: { Self → Slot → Option (List ℕ) };

    /// The size that was learnt of the file in a slot, in bytes.
    ghost sizes: { Self → Slot → Option ℕ };

    /// How often a call failed.
    ghost faults: { Self → ℕ };

    /// How many calls there were.
    ghost asked: { Self → ℕ };

    /// Puts a file into a slot. Its size isn't known then.
    ///
    /// # Errors
    ///
    /// The call failed: its count of failures rose. The slot then holds nothing.
    fn open_file(&mut self, slot: Slot, name: &str) -> Result<(), Failed>
        requires { may self.old slot name.now }

        ensures opened { OnOk result (IsSome (opened self.new slot)) }
        ensures content { OnOk result
            (content (files self.new) slot (opened self.new slot) ≡ named (files self.old) slot name.now) }
        ensures there { OnOk result (IfSome (files self.old) (λ files. IsSome (files slot name.now))) }
        ensures closed { OnErr result (opened self.new slot ≡ None) }
        ensures unlearnt { sizes self.new slot ≡ None }
        ensures others_opened { OthersStay slot (opened self.old) (opened self.new) }
        ensures others_sizes { OthersStay slot (sizes self.old) (sizes self.new) }

        ensures may { (s : Slot) (n : List ℕ) → may self.old s n → may self.new s n }
        ensures may_no_more { (s : Slot) (n : List ℕ) → may self.new s n → may self.old s n }
        ensures files { files self.new ≡ files self.old }
        ensures later { faults self.old ≤ faults self.new }
        ensures quiet { OnOk result (faults self.new ≡ faults self.old) }
        ensures cause { OnErr result (Rose (faults self.old) (faults self.new)) }
        ensures asked { asked self.new ≡ next_count (asked self.old) }
        ensures asked_later { asked self.old ≤ asked self.new };

    /// The length of the file in a slot, in bytes.
    ///
    /// # Errors
    ///
    /// The call failed: its count of failures rose. What was learnt stays.
    fn size(&mut self, slot: Slot) -> Result<u64, Failed>
        requires { IsSome (opened self.old slot) }

        ensures learnt { IfOk result (λ n. sizes self.new slot ≡ Some n) }
        ensures length { IfOk result (HasLength (content (files self.old) slot (opened self.old slot))) }
        ensures unlearnt { OnErr result (sizes self.new slot ≡ sizes self.old slot) }
        ensures opened { opened self.new ≡ opened self.old }
        ensures others_sizes { OthersStay slot (sizes self.old) (sizes self.new) }

        ensures may { (s : Slot) (n : List ℕ) → may self.old s n → may self.new s n }
        ensures may_no_more { (s : Slot) (n : List ℕ) → may self.new s n → may self.old s n }
        ensures files { files self.new ≡ files self.old }
        ensures later { faults self.old ≤ faults self.new }
        ensures quiet { OnOk result (faults self.new ≡ faults self.old) }
        ensures cause { OnErr result (Rose (faults self.old) (faults self.new)) }
        ensures asked { asked self.new ≡ next_count (asked self.old) }
        ensures asked_later { asked self.old ≤ asked self.new };

    /// Fills the buffer with the file's bytes from the file offset `off` on.
    ///
    /// # Errors
    ///
    /// The call failed: its count of failures rose. The buffer then holds any bytes.
    fn read_at(&mut self, slot: Slot, off: u64, buf: &mut [u8]) -> Result<(), Failed>
        requires learnt { IsSome (sizes self.old slot) }
        requires within { ForSome (sizes self.old slot) (λ n. off + length buf.old ≤ n) }

        ensures part { OnOk result
            (HasPart (content (files self.old) slot (opened self.old slot)) off (length buf.old) buf.new) }
        ensures opened { opened self.new ≡ opened self.old }
        ensures sizes { sizes self.new ≡ sizes self.old }

        ensures may { (s : Slot) (n : List ℕ) → may self.old s n → may self.new s n }
        ensures may_no_more { (s : Slot) (n : List ℕ) → may self.new s n → may self.old s n }
        ensures files { files self.new ≡ files self.old }
        ensures later { faults self.old ≤ faults self.new }
        ensures quiet { OnOk result (faults self.new ≡ faults self.old) }
        ensures cause { OnErr result (Rose (faults self.old) (faults self.new)) }
        ensures asked { asked self.new ≡ next_count (asked self.old) }
        ensures asked_later { asked self.old ≤ asked self.new };

    /// A slot whose size is learnt holds a file.
    ghost size_opened: { (store : Self) (slot : Slot) → IsSome (sizes store slot) → IsSome (opened store slot) };

    /// A size fits 64 bits.
    ghost size_fits: { (store : Self) (slot : Slot) (n : ℕ) → sizes store slot ≡ Some n → n < 2 ^ 64 };

    /// A learnt size is the file's length.
    ghost size_length: { (store : Self) (slot : Slot) (n : ℕ) →
        sizes store slot ≡ Some n → HasLength (content (files store) slot (opened store slot)) n };
}
