// The files of a system.
ghost use Rattle.std.specs.Prelude.{◌≡◌, None};
ghost use Rattle.kc_outside.specs.declared.store.Slot.{Slot};

use crate::host::Host;
use crate::seen::Seen;
use crate::slots::Slots;
use crate::store::{Failed, Slot, Store};
use crate::system::System;
use std::rt::Files;

/// The files of a system, of which it holds up to six open. What a file holds is told by nobody, and a
/// call fails exactly where the system did.
#[derive(Drop)]
pub struct FileStore<S: System> {
    system: S,
    held: Slots<Seen<S::File>>,
}

impl<'r, R: Files> FileStore<Host<'r, R>> {
    /// A store over the system that the program runs on. It holds no file yet, and no call was made of it.
    pub fn new(runtime: &'r R) -> Self
        ensures opened { (slot : Slot) → ⟦<FileStore<Host<'r, R>> as Store>⟧.opened result slot ≡ None }
        ensures faults { ⟦<FileStore<Host<'r, R>> as Store>⟧.faults result ≡ 0 }
        ensures asked { ⟦<FileStore<Host<'r, R>> as Store>⟧.asked result ≡ 0 }
    {
        FileStore {
            system: Host::new(runtime),
            held: Slots {
                dump: Seen::Nothing,
                btf: Seen::Nothing,
                map: Seen::Nothing,
                plan: Seen::Nothing,
                report: Seen::Nothing,
                extra: Seen::Nothing,
            },
        }
    }
}

impl<S: System> Store for FileStore<S> {
    ghost use Rattle.std.specs.Prelude.{◌+◌, ◌≤◌, length, IsSome, IsSomeAnd, IfOk, OnOk, OnErr};
    ghost use Rattle.std.specs.Option.{ForSome};
    ghost use Rattle.kc_outside.specs.Counts.{Rose, next_count, faults_after};
    ghost use Rattle.kc_outside.specs.Files.{content, OthersStay, HasLength, HasPart};
    ghost use Rattle.kc_outside.specs.FileStore.{system_of, opened_in, size_in, file_in, IsReadOf};
    ghost use Rattle.kc_outside.specs.SeenLaws.{seen_size-name, seen_size-small};
    ghost use Rattle.kc_outside.specs.Slots.{in_slot};

    ghost may = { λ _ _ _. Unit {0} };

    ghost files = { λ _. None };

    ghost opened = { opened_in };

    ghost sizes = { size_in };

    ghost faults = { λ store. S.faults (system_of store) };

    ghost asked = { λ store. S.asked (system_of store) };

    ghost size_opened = { λ store slot known. seen_size-name (in_slot store.held slot) known };

    ghost size_fits = { λ store slot n known. seen_size-small (in_slot store.held slot) n known };

    ghost size_length = { λ store slot n known. tt };

    /// Puts the file that the system opens for a name into a slot.
    ///
    /// # Errors
    ///
    /// The system didn't open it.
    fn open_file(&mut self, slot: Slot, name: &str) -> Result<(), Failed>
        ensures opened { OnOk result (IsSome (opened_in self.new slot)) }
        ensures closed { OnErr result (opened_in self.new slot ≡ None) }
        ensures unlearnt { size_in self.new slot ≡ None }
        ensures others_opened { OthersStay slot (opened_in self.old) (opened_in self.new) }
        ensures others_sizes { OthersStay slot (size_in self.old) (size_in self.new) }

        ensures later { S.faults (system_of self.old) ≤ S.faults (system_of self.new) }
        ensures quiet { OnOk result (S.faults (system_of self.new) ≡ S.faults (system_of self.old)) }
        ensures cause { OnErr result (Rose (S.faults (system_of self.old)) (S.faults (system_of self.new))) }
        ensures asked { S.asked (system_of self.new) ≡ next_count (S.asked (system_of self.old)) }
        ensures asked_later { S.asked (system_of self.old) ≤ S.asked (system_of self.new) }

        // What this store adds.
        ensures file { OnOk result (IsSomeAnd (file_in self.new slot) (S.opens (system_of self.old) name.now)) }
        ensures others_files { OthersStay slot (file_in self.old) (file_in self.new) }
        ensures faults { S.faults (system_of self.new) ≡ faults_after (S.faults (system_of self.old)) result }
    {
        match self.system.open(name) {
            Ok(file) => {
                self.held.replace(slot, Seen::Opened(file));
                Ok(())
            }
            Err(failed) => {
                self.held.replace(slot, Seen::Nothing);
                Err(failed)
            }
        }
    }

    /// The length that the system tells of the file in a slot, in bytes.
    ///
    /// # Errors
    ///
    /// The system didn't tell it.
    fn size(&mut self, slot: Slot) -> Result<u64, Failed>
        requires { IsSome (opened_in self.old slot) }

        ensures learnt { IfOk result (λ n. size_in self.new slot ≡ Some n) }
        ensures length { IfOk result (HasLength (content None slot (opened_in self.old slot))) }
        ensures unlearnt { OnErr result (size_in self.new slot ≡ size_in self.old slot) }
        ensures opened { opened_in self.new ≡ opened_in self.old }
        ensures others_sizes { OthersStay slot (size_in self.old) (size_in self.new) }

        ensures later { S.faults (system_of self.old) ≤ S.faults (system_of self.new) }
        ensures quiet { OnOk result (S.faults (system_of self.new) ≡ S.faults (system_of self.old)) }
        ensures cause { OnErr result (Rose (S.faults (system_of self.old)) (S.faults (system_of self.new))) }
        ensures asked { S.asked (system_of self.new) ≡ next_count (S.asked (system_of self.old)) }
        ensures asked_later { S.asked (system_of self.old) ≤ S.asked (system_of self.new) }

        // What this store adds.
        ensures told { IfOk result (λ n.
            IsSomeAnd (file_in self.old slot) (λ file. S.tells (system_of self.old) file n)) }
        ensures files { file_in self.new ≡ file_in self.old }
        ensures faults { S.faults (system_of self.new) ≡ faults_after (S.faults (system_of self.old)) result }
    {
        let bytes = match self.held.get(slot) {
            Seen::Opened(file) | Seen::Sized(file, _) => self.system.length(file)?,
            Seen::Nothing => unreachable!(),
        };
        let seen = self.held.replace(slot, Seen::Nothing);
        self.held.replace(slot, seen.with_size(bytes));
        Ok(bytes)
    }

    /// Reads from the file offset `off` of the file in a slot on.
    ///
    /// # Errors
    ///
    /// The system failed, or the file ends before the buffer is full. The buffer then holds any bytes.
    fn read_at(&mut self, slot: Slot, off: u64, buf: &mut [u8]) -> Result<(), Failed>
        requires learnt { IsSome (size_in self.old slot) }
        requires within { ForSome (size_in self.old slot) (λ n. off + length buf.old ≤ n) }

        ensures part { OnOk result
            (HasPart (content None slot (opened_in self.old slot)) off (length buf.old) buf.new) }
        ensures opened { opened_in self.new ≡ opened_in self.old }
        ensures sizes { size_in self.new ≡ size_in self.old }

        ensures later { S.faults (system_of self.old) ≤ S.faults (system_of self.new) }
        ensures quiet { OnOk result (S.faults (system_of self.new) ≡ S.faults (system_of self.old)) }
        ensures cause { OnErr result (Rose (S.faults (system_of self.old)) (S.faults (system_of self.new))) }
        ensures asked { S.asked (system_of self.new) ≡ next_count (S.asked (system_of self.old)) }
        ensures asked_later { S.asked (system_of self.old) ≤ S.asked (system_of self.new) }

        // What this store adds.
        ensures read { OnOk result
            (IsReadOf (S.reads (system_of self.old)) (file_in self.old slot) (file_in self.new slot) off buf.new) }
        ensures others_files { OthersStay slot (file_in self.old) (file_in self.new) }
        ensures faults { S.faults (system_of self.new) ≡ faults_after (S.faults (system_of self.old)) result }
    {
        let Seen::Sized(mut file, size) = self.held.replace(slot, Seen::Nothing) else {
            unreachable!()
        };
        let read = self.system.read(&mut file, off, buf);
        self.held.replace(slot, Seen::Sized(file, size));
        read
    }
}
