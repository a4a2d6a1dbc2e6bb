// A store in memory, for tests.
ghost use Rattle.std.specs.Prelude.{◌≡◌, IsTrue, position};
ghost use Rattle.kc_outside.specs.declared.store.Slot.{Slot};
ghost use Rattle.kc_outside.specs.Slots.{in_slot};
ghost use Rattle.kc_outside.specs.MemFiles.{has_name, is_held, without_size, all_without_size};

use crate::counts::Counts;
use crate::mem_file::{Held, MemFile};
use crate::slots::Slots;
use crate::store::{Failed, Slot, Store};
use kc_word::NoMemory;
use std::alloc::Global;
use std::string::String;

/// Files in memory, and a list of the calls that are to fail, numbered from 1 over all three calls of
/// `Store` together. They fail exactly at the listed calls, and `open_file` at unknown names.
#[derive(Drop)]
pub struct MemStore {
    alloc: Global,
    files: Vec<MemFile>,
    slots: Slots<Held>,
    failing: Vec<u64>,
    counts: Counts,
    ghost held: { (slot : Slot) → IsTrue (is_held files.items (in_slot slots slot)) },
}

impl MemStore {
    ghost use Rattle.std.specs.Prelude.{ℕ, ◌<◌, List, [], ◌∷◌, ◌++◌, Some, None, OnOk, OnErr, nat_lt, if◌then◌else◌};
    ghost use Rattle.std.specs.Str.{bytes_eq};
    ghost use Rattle.kc_outside.specs.MemFiles.{is_name};
    ghost use Rattle.kc_outside.specs.MemStore.{bytes_in, opened_in, size_in, failing_in, calls_of, faults_of};

    /// A store without files, of which no call is to fail.
    pub fn new(alloc: Global) -> MemStore
        ensures bytes { (name : List ℕ) → bytes_in result name ≡ None }
        ensures opened { (slot : Slot) → opened_in result slot ≡ None }
        ensures sizes { (slot : Slot) → size_in result slot ≡ None }
        ensures failing { failing_in result ≡ [] }
        ensures calls { calls_of result ≡ 0 }
        ensures faults { faults_of result ≡ 0 }
    {
        MemStore {
            alloc,
            files: Vec::new(alloc),
            slots: Slots {
                dump: Held::Nothing,
                btf: Held::Nothing,
                map: Held::Nothing,
                plan: Held::Nothing,
                report: Held::Nothing,
                extra: Held::Nothing,
            },
            failing: Vec::new(alloc),
            counts: Counts::new(),
        }
    }

    /// Gives a name its bytes, in every slot. A name that is there already gets these bytes in place of
    /// its own, and a slot that holds it doesn't know its size any more.
    ///
    /// # Errors
    ///
    /// Out of memory. Nothing changes then.
    pub fn add(&mut self, name: &str, bytes: &[u8]) -> Result<(), NoMemory>
        ensures bytes { OnOk result ((other : List ℕ) →
            bytes_in self.new other ≡ (if bytes_eq name.now other then Some bytes.now else bytes_in self.old other)) }
        ensures sizes { OnOk result ((slot : Slot) →
            size_in self.new slot ≡ (if is_name (opened_in self.old slot) name.now then None else size_in self.old slot)) }
        ensures opened { (slot : Slot) → opened_in self.new slot ≡ opened_in self.old slot }
        ensures failing { failing_in self.new ≡ failing_in self.old }
        ensures calls { calls_of self.new ≡ calls_of self.old }
        ensures faults { faults_of self.new ≡ faults_of self.old }

        ensures bytes_stay { OnErr result ((other : List ℕ) → bytes_in self.new other ≡ bytes_in self.old other) }
        ensures sizes_stay { OnErr result ((slot : Slot) → size_in self.new slot ≡ size_in self.old slot) }
    {
        let file = MemFile {
            name: String::from_str(self.alloc, name)?,
            bytes: Vec::from_slice(self.alloc, bytes)?,
        };
        match self.place_of(name) {
            Some(at) => {
                self.replace_file(at, file);
                Ok(())
            }
            None => self.push_file(file),
        }
    }

    /// Lists a call that is to fail, by its number: the first call of `Store` is 1. A number 0, or of a
    /// call that was made already, has no effect.
    ///
    /// # Errors
    ///
    /// Out of memory. Nothing changes then.
    pub fn fail(&mut self, call: u64) -> Result<(), NoMemory>
        ensures failing { OnOk result (failing_in self.new
            ≡ (if nat_lt (calls_of self.old) call then failing_in self.old ++ call ∷ [] else failing_in self.old)) }
        ensures failing_stay { OnErr result (failing_in self.new ≡ failing_in self.old) }
        ensures memory { OnErr result (calls_of self.old < call) }
        ensures bytes { (other : List ℕ) → bytes_in self.new other ≡ bytes_in self.old other }
        ensures opened { (slot : Slot) → opened_in self.new slot ≡ opened_in self.old slot }
        ensures sizes { (slot : Slot) → size_in self.new slot ≡ size_in self.old slot }
        ensures calls { calls_of self.new ≡ calls_of self.old }
        ensures faults { faults_of self.new ≡ faults_of self.old }
    {
        if call > self.counts.asked {
            self.failing.push(call)?;
        }
        Ok(())
    }

    /// How many calls of `Store` were made, at most 2^64 - 1. It takes no memory.
    pub fn calls(&self) -> u64
        ensures { result ≡ calls_of self.now }
    {
        self.counts.asked
    }
}

impl MemStore {
    ghost use Rattle.std.specs.Prelude.{ℕ, ◌≤◌, ◌<◌, List, not, is_ok, is_some, length, vec_len, Some, None, IsSome, IfSome, OnOk, OnErr, if◌then◌else◌};
    ghost use Rattle.std.specs.Str.{bytes_eq};
    ghost use Rattle.kc_outside.specs.Counts.{next_count, faults_after};
    ghost use Rattle.kc_outside.specs.Files.{content, OthersStay, HasLength};
    ghost use Rattle.kc_outside.specs.Slots.{with_slot};
    ghost use Rattle.kc_outside.specs.MemFiles.{name_of, bytes_of, is_name, held_name, held_place};
    ghost use Rattle.kc_outside.specs.MemStore.{bytes_in, files_in, opened_in, size_in, calls_of, faults_of, next_fails};

    // The place of the first file of a name.
    fn place_of(&self, name: &str) -> Option<usize>
        ensures known { is_some result ≡ is_some (bytes_in self.now name.now) }
        ensures held { IfSome result (λ at. IsTrue (is_held self.now.files.items (Held.Opened at))) }
        ensures name { IfSome result (λ at. held_name self.now.files.items (Held.Opened at) ≡ Some name.now) }
    {
        first_of(self.files.as_slice(), name)
    }

    // The bytes of the file that a slot holds.
    fn held_bytes(&self, slot: Slot) -> &[u8]
        requires { IsSome (opened_in self.now slot) }
        ensures content { content (files_in self.now) slot (opened_in self.now slot) ≡ Some result.now }
        ensures size { IfSome (size_in self.now slot) (λ n. n ≡ length result.now) }
    {
        self.files[self.place_in(slot)].bytes.as_slice()
    }

    // The place of the file that a slot holds.
    fn place_in(&self, slot: Slot) -> usize
        requires { IsSome (opened_in self.now slot) }
        ensures place { held_place (in_slot self.now.slots slot) ≡ Some result }
        ensures within { result < vec_len self.now.files }
    {
        match *self.slots.get(slot) {
            Held::Opened(at) | Held::Learnt(at) => at,
            Held::Nothing => unreachable!(),
        }
    }

    // Puts a place into a slot.
    fn put(&mut self, slot: Slot, held: Held)
        requires { IsTrue (is_held self.old.files.items held) }
        ensures slots { self.new.slots ≡ with_slot self.old.slots slot held }
        ensures files { self.new.files ≡ self.old.files }
        ensures failing { self.new.failing ≡ self.old.failing }
        ensures counts { self.new.counts ≡ self.old.counts }
    {
        self.slots.replace(slot, held);
    }

    // Learns the size of the file that a slot holds, and says it.
    fn learn(&mut self, slot: Slot) -> u64
        requires { IsSome (opened_in self.old slot) }
        ensures size { size_in self.new slot ≡ Some result }
        ensures length { HasLength (content (files_in self.old) slot (opened_in self.old slot)) result }
        ensures opened { opened_in self.new ≡ opened_in self.old }
        ensures others_sizes { OthersStay slot (size_in self.old) (size_in self.new) }
        ensures files { self.new.files ≡ self.old.files }
        ensures failing { self.new.failing ≡ self.old.failing }
        ensures counts { self.new.counts ≡ self.old.counts }
    {
        let at = self.place_in(slot);
        let size = self.held_bytes(slot).len() as u64;
        self.put(slot, Held::Learnt(at));
        size
    }

    // Puts a file in the place of the one that has its name. A slot that holds it doesn't know its size
    // any more.
    fn replace_file(&mut self, at: usize, file: MemFile)
        requires held { IsTrue (is_held self.old.files.items (Held.Opened at)) }
        requires name { held_name self.old.files.items (Held.Opened at) ≡ Some (name_of file) }
        ensures bytes { (other : List ℕ) → bytes_in self.new other ≡ (if bytes_eq (name_of file) other then Some (bytes_of file) else bytes_in self.old other) }
        ensures sizes { (slot : Slot) → size_in self.new slot ≡ (if is_name (opened_in self.old slot) (name_of file) then None else size_in self.old slot) }
        ensures opened { (slot : Slot) → opened_in self.new slot ≡ opened_in self.old slot }
        ensures failing { self.new.failing ≡ self.old.failing }
        ensures counts { self.new.counts ≡ self.old.counts }
    {
        self.files[at] = file;
        self.slots = forget_sizes(&self.slots, at);
    }

    // Puts a file of a new name after the others.
    fn push_file(&mut self, file: MemFile) -> Result<(), NoMemory>
        requires { bytes_in self.old (name_of file) ≡ None }
        ensures bytes { OnOk result ((other : List ℕ) →
            bytes_in self.new other ≡ (if bytes_eq (name_of file) other then Some (bytes_of file) else bytes_in self.old other)) }
        ensures sizes { OnOk result ((slot : Slot) →
            size_in self.new slot ≡ (if is_name (opened_in self.old slot) (name_of file) then None else size_in self.old slot)) }
        ensures opened { (slot : Slot) → opened_in self.new slot ≡ opened_in self.old slot }
        ensures failing { self.new.failing ≡ self.old.failing }
        ensures counts { self.new.counts ≡ self.old.counts }
        ensures bytes_stay { OnErr result ((other : List ℕ) → bytes_in self.new other ≡ bytes_in self.old other) }
        ensures sizes_stay { OnErr result ((slot : Slot) → size_in self.new slot ≡ size_in self.old slot) }
    {
        self.files.push(file)?;
        Ok(())
    }

    // Counts a call that begins, and fails it where it is listed.
    fn begin(&mut self) -> Result<(), Failed>
        ensures succeeds { is_ok result ≡ not (next_fails self.old) }
        ensures files { self.new.files ≡ self.old.files }
        ensures slots { self.new.slots ≡ self.old.slots }
        ensures opened { opened_in self.new ≡ opened_in self.old }
        ensures failing { self.new.failing ≡ self.old.failing }
        ensures calls { calls_of self.new ≡ next_count (calls_of self.old) }
        ensures calls_later { calls_of self.old ≤ calls_of self.new }
        ensures faults { faults_of self.new ≡ faults_after (faults_of self.old) result }
        ensures later { faults_of self.old ≤ faults_of self.new }
    {
        let fails = self.next_fails();
        self.counts.ask();
        if fails {
            Err(self.counts.fail())
        } else {
            Ok(())
        }
    }

    // Whether the next call is to fail.
    fn next_fails(&self) -> bool
        ensures { result ≡ next_fails self.now }
    {
        // No call is listed by a number past 2^64 - 1.
        let next = u128::from(self.counts.asked) + 1;
        self.failing.iter().any(|call| u128::from(*call) == next)
    }
}

// The slots, of which those that hold a place don't know its size any more.
fn forget_sizes(slots: &Slots<Held>, at: usize) -> Slots<Held>
    ensures { result ≡ all_without_size at slots.now }
{
    Slots {
        dump: forget_size(slots.dump, at),
        btf: forget_size(slots.btf, at),
        map: forget_size(slots.map, at),
        plan: forget_size(slots.plan, at),
        report: forget_size(slots.report, at),
        extra: forget_size(slots.extra, at),
    }
}

// What a slot holds, without its size where it holds that place.
fn forget_size(held: Held, at: usize) -> Held
    ensures { result ≡ without_size at held }
{
    match held {
        Held::Learnt(place) if place == at => Held::Opened(place),
        _ => held,
    }
}

// The place of the first file of a name.
fn first_of(files: &[MemFile], name: &str) -> Option<usize>
    ensures { result ≡ position (has_name name.now) files.now }
{
    files.iter().position(|file| file.name.as_str() == name)
}

impl Store for MemStore {
    ghost use Rattle.std.specs.Prelude.{ℕ, ◌+◌, ◌≤◌, ◌&&◌, List, length, Option, Some, None, IsSome, IfSome, IfOk, OnOk, OnErr, is_ok, is_some, not, if◌then◌else◌};
    ghost use Rattle.std.specs.Option.{ForSome};
    ghost use Rattle.kc_outside.specs.Counts.{Rose, next_count, faults_after};
    ghost use Rattle.kc_outside.specs.Files.{Files, content, named, OthersStay, HasLength, HasPart};
    ghost use Rattle.kc_outside.specs.MemLaws.{size_has_name, size_is_small, size_is_length};
    ghost use Rattle.kc_outside.specs.MemStore.{bytes_in, files_in, opened_in, size_in, failing_in, faults_of, calls_of, next_fails};

    ghost may = { λ _ _ _. Unit {0} };

    ghost files = { files_in };

    ghost opened = { opened_in };

    ghost sizes = { size_in };

    ghost faults = { faults_of };

    ghost asked = { calls_of };

    ghost size_opened = { λ store slot known. size_has_name store.files.items (in_slot store.slots slot) known };

    ghost size_fits = { λ store slot n known. size_is_small store.files.items (in_slot store.slots slot) n known };

    ghost size_length = { λ store slot n known. size_is_length store.files.items (in_slot store.slots slot) n (store.held slot) known };

    /// Puts the file of a name into a slot. It takes no memory.
    ///
    /// # Errors
    ///
    /// This call is listed to fail, or there is no such name.
    fn open_file(&mut self, slot: Slot, name: &str) -> Result<(), Failed>
        ensures opened { OnOk result (IsSome (opened_in self.new slot)) }
        ensures content { OnOk result
            (content (files_in self.new) slot (opened_in self.new slot) ≡ named (files_in self.old) slot name.now) }
        ensures there { OnOk result (IfSome (files_in self.old) (λ files. IsSome (files slot name.now))) }
        ensures closed { OnErr result (opened_in self.new slot ≡ None) }
        ensures unlearnt { size_in self.new slot ≡ None }
        ensures others_opened { OthersStay slot (opened_in self.old) (opened_in self.new) }
        ensures others_sizes { OthersStay slot (size_in self.old) (size_in self.new) }

        ensures files { files_in self.new ≡ files_in self.old }
        ensures later { faults_of self.old ≤ faults_of self.new }
        ensures quiet { OnOk result (faults_of self.new ≡ faults_of self.old) }
        ensures cause { OnErr result (Rose (faults_of self.old) (faults_of self.new)) }
        ensures asked { calls_of self.new ≡ next_count (calls_of self.old) }
        ensures asked_later { calls_of self.old ≤ calls_of self.new }

        // What this store adds.
        ensures succeeds { is_ok result ≡ (not (next_fails self.old) && is_some (bytes_in self.old name.now)) }
        ensures name { OnOk result (opened_in self.new slot ≡ Some name.now) }
        ensures faults { faults_of self.new ≡ faults_after (faults_of self.old) result }
        ensures failing { failing_in self.new ≡ failing_in self.old }
    {
        self.put(slot, Held::Nothing);
        self.begin()?;
        match self.place_of(name) {
            Some(at) => {
                self.put(slot, Held::Opened(at));
                Ok(())
            }
            None => Err(self.counts.fail()),
        }
    }

    /// The length of the file in a slot, in bytes. It takes no memory.
    ///
    /// # Errors
    ///
    /// This call is listed to fail.
    fn size(&mut self, slot: Slot) -> Result<u64, Failed>
        requires { IsSome (opened_in self.old slot) }

        ensures learnt { IfOk result (λ n. size_in self.new slot ≡ Some n) }
        ensures length { IfOk result (HasLength (content (files_in self.old) slot (opened_in self.old slot))) }
        ensures unlearnt { OnErr result (size_in self.new slot ≡ size_in self.old slot) }
        ensures opened { opened_in self.new ≡ opened_in self.old }
        ensures others_sizes { OthersStay slot (size_in self.old) (size_in self.new) }

        ensures files { files_in self.new ≡ files_in self.old }
        ensures later { faults_of self.old ≤ faults_of self.new }
        ensures quiet { OnOk result (faults_of self.new ≡ faults_of self.old) }
        ensures cause { OnErr result (Rose (faults_of self.old) (faults_of self.new)) }
        ensures asked { calls_of self.new ≡ next_count (calls_of self.old) }
        ensures asked_later { calls_of self.old ≤ calls_of self.new }

        // What this store adds.
        ensures succeeds { is_ok result ≡ not (next_fails self.old) }
        ensures faults { faults_of self.new ≡ faults_after (faults_of self.old) result }
        ensures failing { failing_in self.new ≡ failing_in self.old }
    {
        self.begin()?;
        Ok(self.learn(slot))
    }

    /// Fills the buffer with the file's bytes from the file offset `off` on. It takes no memory.
    ///
    /// # Errors
    ///
    /// This call is listed to fail.
    fn read_at(&mut self, slot: Slot, off: u64, buf: &mut [u8]) -> Result<(), Failed>
        requires learnt { IsSome (size_in self.old slot) }
        requires within { ForSome (size_in self.old slot) (λ n. off + length buf.old ≤ n) }

        ensures part { OnOk result
            (HasPart (content (files_in self.old) slot (opened_in self.old slot)) off (length buf.old) buf.new) }
        ensures opened { opened_in self.new ≡ opened_in self.old }
        ensures sizes { size_in self.new ≡ size_in self.old }

        ensures files { files_in self.new ≡ files_in self.old }
        ensures later { faults_of self.old ≤ faults_of self.new }
        ensures quiet { OnOk result (faults_of self.new ≡ faults_of self.old) }
        ensures cause { OnErr result (Rose (faults_of self.old) (faults_of self.new)) }
        ensures asked { calls_of self.new ≡ next_count (calls_of self.old) }
        ensures asked_later { calls_of self.old ≤ calls_of self.new }

        // What this store adds.
        ensures succeeds { is_ok result ≡ not (next_fails self.old) }
        ensures faults { faults_of self.new ≡ faults_after (faults_of self.old) result }
        ensures failing { failing_in self.new ≡ failing_in self.old }
    {
        self.begin()?;
        let start = off as usize;
        buf.copy_from_slice(&self.held_bytes(slot)[start..start + buf.len()]);
        Ok(())
    }
}
