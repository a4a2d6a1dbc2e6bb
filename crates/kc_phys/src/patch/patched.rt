// The frames of a file with changes.
ghost use Rattle.std.specs.Prelude.{◌≡◌, ◌+◌, ◌%◌, ◌≤◌, ◌∷◌, [], Option, None, option_map};
ghost use Rattle.kc_outside.specs.declared.store.Slot.TheVariants.{Dump};
ghost use Rattle.kc_outside.specs.Files.{content};
ghost use Rattle.kc_memory.specs.Frames.{CountsFaults, ReadsWord};
ghost use Rattle.kc_memory.specs.Image.{Physical};
ghost use Rattle.kc_memory.specs.Stays.{FramesStay};
ghost use Rattle.kc_phys.specs.Stored.{IsPart, stored};
ghost use Rattle.kc_phys.specs.Patch.Changed.{changed_at, patched_all, share, share_any, with_changes};

use crate::Phys;
use crate::patch::change::Change;
use crate::patch::lay::lay_all;
use byteorder::{ByteOrder, LittleEndian};
use kc_memory::{FrameStop, Frames, Origin, PWord};
use kc_outside::{Failed, Slot, Store};
use kc_word::Steps;
use std::marker::{Brand, PhantomData};
use std::sync::ledger::Ledger;

const WORD_BYTES: u64 = 8;

/// The physical memory that is lent to a [`Patched`], of which its invariant keeps hold while others read it. It takes no
/// bytes: a call passes `Brand`, and its proof picks the memory.
pub trait Lent {
    /// What is lent, or `None` where it isn't told.
    ghost physical: { Option Physical };
}

impl Lent for Brand {
    ghost physical = { None };
}

/// The physical memory of the file in slot Dump, as if changes were written into the file, one after the other. A word
/// that shares a byte with one of them has a read of its own, over which they are laid; of all others the blocks that are kept serve.
#[derive(Drop)]
pub struct Patched<'s, 'c, S: Store, K: Lent> {
    /// The memory of the file as it is.
    pub memory: Phys<'s, S>,
    /// The changes.
    pub changes: &'c [Change],
    /// What is lent.
    pub of: PhantomData<K>,
    pub ghost lent: { stored memory.segments.items memory.tail (content (S.files memory.store.now) Dump (S.opened memory.store.now Dump)) ≡ K.physical },
}

impl<'s, 'c, S: Store, K: Lent> Patched<'s, 'c, S, K> {
    /// The memory with changes. It takes no memory, and can't fail.
    pub fn over(memory: Phys<'s, S>, changes: &'c [Change]) -> Self
        requires { stored memory.segments.items memory.tail (content (S.files memory.store.now) Dump (S.opened memory.store.now Dump)) ≡ K.physical }
        ensures memory { result.memory ≡ memory.entry }
        ensures changes { result.changes.now ≡ changes.now }
    {
        Patched {
            memory,
            changes,
            of: PhantomData,
        }
    }

    /// Hands the memory back.
    pub fn into_memory(self) -> Phys<'s, S>
        ensures { result ≡ self.entry.memory }
    {
        let Patched {
            memory,
            changes: _,
            of: _,
        } = self;
        memory
    }
}

impl<'s, 'c, S: Store, K: Lent> Frames for Patched<'s, 'c, S, K> {
    ghost image = { λ p. option_map (patched_all p.changes.now) (stored p.memory.segments.items p.memory.tail (content (S.files p.memory.store.now) Dump (S.opened p.memory.store.now Dump))) };

    ghost files = { λ p. S.files p.memory.store.now };

    ghost faults = { λ p. S.faults p.memory.store.now };

    ghost through = { λ p. p.memory.store.ghost_name ∷ [] };

    /// The word at a physical address in bytes, a multiple of 8. It takes one step and no memory.
    ///
    /// # Errors
    ///
    /// Those of [`Phys`], and a failure of the store where the word is read again.
    fn word<L: Ledger>(&mut self, pa: u64, steps: &mut Steps<L>) -> Result<PWord, FrameStop>
        requires { pa % 8 ≡ 0 }

        ensures word { ReadsWord (option_map (patched_all self.old.changes.now) (stored self.old.memory.segments.items self.old.memory.tail (content (S.files self.old.memory.store.now) Dump (S.opened self.old.memory.store.now Dump)))) pa result }
        ensures steps { steps.new ≡ steps.old + 1 }

        ensures stays { FramesStay (λ p. option_map (patched_all p.changes.now) (stored p.memory.segments.items p.memory.tail (content (S.files p.memory.store.now) Dump (S.opened p.memory.store.now Dump)))) (λ p. S.files p.memory.store.now) (λ p. p.memory.store.ghost_name ∷ []) self.old self.new }
        ensures cause { CountsFaults result (S.faults self.old.memory.store.now) (S.faults self.new.memory.store.now) }
    {
        match self.memory.word(pa, steps) {
            Ok(word) => match changed_at(self.changes, word.off, self.memory.end) {
                Some(off) => read_changed(&mut self.memory, off, self.changes),
                None => Ok(word),
            },
            Err(stop) => Err(stop),
        }
    }
}

/// Whether the words of eight bytes at two file offsets share a byte.
pub fn share(a: u64, b: u64) -> bool
    ensures { result ≡ share a b }
{
    a.abs_diff(b) < WORD_BYTES
}

// Whether the word at a file offset shares a byte with one of some changes.
fn share_any(changes: &[Change], off: u64) -> bool
    ensures { result ≡ share_any changes.now off }
{
    changes.iter().any(|change| share(off, change.off))
}

// The file offset of a word that shares a byte with a change. It ends before `end`, or there.
fn changed_at(changes: &[Change], origin: Origin, end: u64) -> Option<u64>
    ensures { result ≡ changed_at changes.now end origin }
{
    match origin {
        Origin::File(off) => {
            let is_inside = end.saturating_sub(off) >= WORD_BYTES;
            (is_inside && share_any(changes, off)).then_some(off)
        }
        Origin::Tail => None,
    }
}

// The word at a file offset, as the changes leave it.
fn read_changed<S: Store>(
    memory: &mut Phys<'_, S>,
    off: u64,
    changes: &[Change],
) -> Result<PWord, FrameStop>
    requires { off + 8 ≤ memory.old.end }

    ensures word { IsPart (with_changes changes.now (content (S.files memory.old.store.now) Dump (S.opened memory.old.store.now Dump))) off result }
    ensures stays { FramesStay (λ p. stored p.segments.items p.tail (content (S.files p.store.now) Dump (S.opened p.store.now Dump))) (λ p. S.files p.store.now) (λ p. p.store.ghost_name ∷ []) memory.old memory.new }
    ensures cause { CountsFaults result (S.faults memory.old.store.now) (S.faults memory.new.store.now) }
{
    let mut bytes = [0; 8];
    match memory.store.read_at(Slot::Dump, off, &mut bytes) {
        Ok(()) => {
            lay_all(&mut bytes, off, changes);
            Ok(PWord {
                value: LittleEndian::read_u64(&bytes),
                off: Origin::File(off),
            })
        }
        Err(Failed) => Err(FrameStop::Fault),
    }
}
