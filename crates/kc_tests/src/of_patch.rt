// Words of a made dump of which one word is changed.
ghost use Rattle.std.specs.Prelude.{◌≡◌, ◌<◌, Some, IfOk};
ghost use Rattle.kc_outside.specs.MemStore.{size_in};
ghost use Rattle.kc_outside.specs.Files.{content};
ghost use Rattle.kc_phys.specs.Stored.{stored};

use crate::dumps::{fit, opened};
use kc_memory::{FrameStop, Frames, Origin};
use kc_outside::{MemStore, Slot, Store};
use kc_phys::{Change, Lent, Patched, Phys, Room};
use kc_word::{Segment, Steps, Tail};
use std::alloc::{AllocError, Global};
use std::marker::Brand;
use std::string::String;
use std::sync::ledger::{Blank, Ledger};
use std::test::Fail;

// A file of six words, in which each byte is its own file offset.
fn made(alloc: Global) -> Result<(MemStore, u64), Fail>
    ensures { IfOk result (λ r. size_in r.0 Slot.Dump ≡ Some r.1) }
{
    let mut bytes = Vec::new(alloc);
    for byte in 0..48 {
        bytes.push(byte)?;
    }
    let mut store = MemStore::new(alloc);
    store.add("dump", &bytes)?;
    opened(store)
}

// The file's first five words stand at the physical address 0, with a word of zeros after them, and the four words from byte 4 on
// stand at 0x1000.
const SEGMENTS: [Segment; 2] = [
    Segment {
        paddr: 0,
        filesz: 40,
        memsz: 48,
        offset: 0,
    },
    Segment {
        paddr: 0x1000,
        filesz: 32,
        memsz: 32,
        offset: 4,
    },
];

const CHANGE: Change = Change {
    off: 16,
    value: 0xf7f6_f5f4_f3f2_f1f0,
};

// The words at the multiples of 8 of these addresses, with changes.
fn told<S: Store, K: Lent, L: Ledger>(
    alloc: Global,
    memory: Phys<'_, S>,
    changes: &[Change],
    words: &[u64],
    blank: Blank,
) -> Result<String, AllocError>
    requires lent { stored memory.segments.items memory.tail (content (S.files memory.store.now) Slot.Dump (S.opened memory.store.now Slot.Dump)) ≡ K.physical }
    requires name { blank.name ≡ L.name }
    requires parts { blank.parts ≡ L.parts }
    requires some { 0 < L.parts }
{
    let mut steps = Steps::<L>::new(blank);
    let mut patched = Patched::<S, K>::over(memory, changes);
    let mut text = String::new(alloc);
    for word in words {
        match patched.word(word / 8 * 8, &mut steps) {
            Ok(word) => match word.off {
                Origin::File(at) => write!(&mut text, "{at:x}={:016x} ", word.value)?,
                Origin::Tail => write!(&mut text, "tail={:x} ", word.value)?,
            },
            Err(FrameStop::Absent) => write!(&mut text, "absent ")?,
            Err(FrameStop::Fault) => write!(&mut text, "fault ")?,
        }
    }
    let memory = patched.into_memory();
    let _store = memory.into_store();
    Ok(text)
}

// Before the change, at it, after it; the tail, and what isn't there; before the words that share bytes with it, the two that do,
// and after them.
const WORDS: [u64; 9] = [8, 16, 24, 40, 48, 0x1000, 0x1008, 0x1010, 0x1018];

const TOLD: &str = "8=0f0e0d0c0b0a0908 10=f7f6f5f4f3f2f1f0 18=1f1e1d1c1b1a1918 tail=0 absent \
4=0b0a090807060504 c=f3f2f1f00f0e0d0c 14=1b1a1918f7f6f5f4 1c=232221201f1e1d1c ";

// A later change lies over an earlier one.
const CHANGES: [Change; 2] = [
    CHANGE,
    Change {
        off: 20,
        value: 0x0706_0504_0302_0100,
    },
];

const TOLD_ALL: &str = "8=0f0e0d0c0b0a0908 10=03020100f3f2f1f0 18=1f1e1d1c07060504 tail=0 absent \
4=0b0a090807060504 c=f3f2f1f00f0e0d0c 14=0706050403020100 1c=232221201f1e1d1c ";

#[test]
fn several_changed_words_are_read_changed(rt: HostRuntime) -> Result<(), Fail> {
    let alloc = rt.alloc();
    let (mut store, size) = made(alloc)?;
    let room = Room::new(alloc, &SEGMENTS, Tail::Zero)?;
    assert!(rt; fit(&store, &room.segments, size));
    if fit(&store, &room.segments, size) {
        let memory = Phys::over(&mut store, room);
        let blank = Blank::new(1);
        let text = told::<MemStore, Brand, Brand>(alloc, memory, &CHANGES, &WORDS, blank)?;
        assert_eq!(rt; text.as_str(), TOLD_ALL);
    }
    Ok(())
}

#[test]
fn a_changed_word_is_read_changed(rt: HostRuntime) -> Result<(), Fail> {
    let alloc = rt.alloc();
    let (mut store, size) = made(alloc)?;
    let room = Room::new(alloc, &SEGMENTS, Tail::Zero)?;
    assert!(rt; fit(&store, &room.segments, size));
    if fit(&store, &room.segments, size) {
        let memory = Phys::over(&mut store, room);
        let blank = Blank::new(1);
        let text = told::<MemStore, Brand, Brand>(alloc, memory, &[CHANGE], &WORDS, blank)?;
        assert_eq!(rt; text.as_str(), TOLD);
    }
    Ok(())
}
