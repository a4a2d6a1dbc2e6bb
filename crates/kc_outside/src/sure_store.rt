// A store that never fails.
ghost use Rattle.std.specs.Prelude.{◌≡◌};

use crate::slots::Slots;
use crate::store::{Failed, Slot, Store};
use crate::sure_files::{FourFiles, SureSlot};

/// One file in memory for each slot. Every name is there, and stands in a slot for that slot's file. The slots
/// `Report` and `Module` have empty files. No call fails.
#[derive(Drop)]
pub struct SureStore {
    files: FourFiles,
    slots: Slots<SureSlot>,
    asked: u64,
}

impl SureStore {
    ghost use Rattle.std.specs.Prelude.{◌≤◌, None};
    ghost use Rattle.kc_outside.specs.Counts.{next_count};
    ghost use Rattle.kc_outside.specs.declared.store.Slot.{Slot};
    ghost use Rattle.kc_outside.specs.SureStore.{calls_of, file_in, file_of, opened_in, size_in};

    /// A store of these files, of which no call was made. It takes no memory.
    pub fn new(files: FourFiles) -> SureStore
        ensures files { file_in result ≡ file_of files }
        ensures opened { (slot : Slot) → opened_in result slot ≡ None }
        ensures sizes { (slot : Slot) → size_in result slot ≡ None }
        ensures calls { calls_of result ≡ 0 }
    {
        SureStore {
            files,
            slots: Slots {
                dump: SureSlot::Nothing,
                btf: SureSlot::Nothing,
                map: SureSlot::Nothing,
                plan: SureSlot::Nothing,
                report: SureSlot::Nothing,
                extra: SureSlot::Nothing,
            },
            asked: 0,
        }
    }

    // Counts a call.
    fn ask(&mut self)
        ensures next { self.new ≡ record self.old { asked = next_count self.old.asked } }
        ensures later { calls_of self.old ≤ calls_of self.new }
    {
        self.asked = self.asked.saturating_add(1);
    }

    // The bytes of a slot's file.
    fn file(&self, slot: Slot) -> &[u8]
        ensures { result.now ≡ file_in self.now slot }
    {
        match slot {
            Slot::Dump => self.files.dump.as_slice(),
            Slot::Btf => self.files.btf.as_slice(),
            Slot::Map => self.files.map.as_slice(),
            Slot::Plan => self.files.plan.as_slice(),
            Slot::Report | Slot::Module => &[],
        }
    }
}

impl Store for SureStore {
    ghost use Rattle.std.specs.Prelude.{ℕ, ◌+◌, ◌≤◌, List, length, Option, Some, None, IsSome, IfSome, IfOk, OnOk, OnErr, IsOk};
    ghost use Rattle.std.specs.Option.{ForSome};
    ghost use Rattle.kc_outside.specs.Counts.{Rose, next_count};
    ghost use Rattle.kc_outside.specs.Files.{Files, content, named, OthersStay, HasLength, HasPart};
    ghost use Rattle.kc_outside.specs.SureStore.{calls_of, file_in, files_in, opened_in, size_in};
    ghost use Rattle.kc_outside.specs.SureLaws.{size_has_name, size_is_small, size_is_length};

    ghost may = { λ _ _ _. Unit {0} };

    ghost files = { files_in };

    ghost opened = { opened_in };

    ghost sizes = { size_in };

    ghost faults = { λ _. 0 };

    ghost asked = { calls_of };

    ghost size_opened = { size_has_name };

    ghost size_fits = { size_is_small };

    ghost size_length = { size_is_length };

    /// Puts the slot's file into it, whatever the name is. It never fails, and takes no memory.
    fn open_file(&mut self, slot: Slot, name: &str) -> Result<(), Failed>
        ensures opened { OnOk result (IsSome (opened_in self.new slot)) }
        ensures content { OnOk result
            (content (files_in self.new) slot (opened_in self.new slot) ≡ named (files_in self.old) slot name.now) }
        ensures there { OnOk result (IfSome (files_in self.old) (λ files. IsSome (files slot name.now))) }
        ensures closed { OnErr result (opened_in self.new slot ≡ None) }
        ensures unlearnt { size_in self.new slot ≡ None }
        ensures others_opened { OthersStay slot (opened_in self.old) (opened_in self.new) }
        ensures others_sizes { OthersStay slot (size_in self.old) (size_in self.new) }

        ensures files { files_in self.new ≡ files_in self.old }
        ensures asked { calls_of self.new ≡ next_count (calls_of self.old) }
        ensures asked_later { calls_of self.old ≤ calls_of self.new }

        // What this store adds.
        ensures sure { IsOk result }
    {
        let _ = name;
        self.ask();
        self.slots.replace(slot, SureSlot::Opened);
        Ok(())
    }

    /// The length of the file in a slot, in bytes. It never fails, and takes no memory.
    fn size(&mut self, slot: Slot) -> Result<u64, Failed>
        requires { IsSome (opened_in self.old slot) }

        ensures learnt { IfOk result (λ n. size_in self.new slot ≡ Some n) }
        ensures length { IfOk result (HasLength (content (files_in self.old) slot (opened_in self.old slot))) }
        ensures unlearnt { OnErr result (size_in self.new slot ≡ size_in self.old slot) }
        ensures opened { opened_in self.new ≡ opened_in self.old }
        ensures others_sizes { OthersStay slot (size_in self.old) (size_in self.new) }

        ensures files { files_in self.new ≡ files_in self.old }
        ensures asked { calls_of self.new ≡ next_count (calls_of self.old) }
        ensures asked_later { calls_of self.old ≤ calls_of self.new }

        // What this store adds.
        ensures sure { IsOk result }
    {
        self.ask();
        let size = self.file(slot).len() as u64;
        self.slots.replace(slot, SureSlot::Learnt);
        Ok(size)
    }

    /// Fills the buffer with the file's bytes from the file offset `off` on. It never fails, and takes no memory.
    fn read_at(&mut self, slot: Slot, off: u64, buf: &mut [u8]) -> Result<(), Failed>
        requires learnt { IsSome (size_in self.old slot) }
        requires within { ForSome (size_in self.old slot) (λ n. off + length buf.old ≤ n) }

        ensures part { OnOk result
            (HasPart (content (files_in self.old) slot (opened_in self.old slot)) off (length buf.old) buf.new) }
        ensures opened { opened_in self.new ≡ opened_in self.old }
        ensures sizes { size_in self.new ≡ size_in self.old }

        ensures files { files_in self.new ≡ files_in self.old }
        ensures asked { calls_of self.new ≡ next_count (calls_of self.old) }
        ensures asked_later { calls_of self.old ≤ calls_of self.new }

        // What this store adds.
        ensures sure { IsOk result }
    {
        self.ask();
        let start = off as usize;
        buf.copy_from_slice(&self.file(slot)[start..start + buf.len()]);
        Ok(())
    }
}
