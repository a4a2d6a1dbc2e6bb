// Words of made dumps, asked one after the other.
ghost use Rattle.std.specs.Prelude.{◌≡◌, ◌<◌, Some, IfOk};
ghost use Rattle.kc_outside.specs.MemStore.{size_in};
ghost use Rattle.kc_phys.specs.Stored.{AreInside};

use crate::dumps::{fit, opened};
use kc_memory::{FrameStop, Frames, Origin, PWord};
use kc_outside::{MemStore, Slot};
use kc_phys::{Phys, Room};
use kc_word::{Segment, Steps, Tail, read_hex};
use std::alloc::{AllocError, Global};
use std::marker::Brand;
use std::string::String;
use std::sync::ledger::{Blank, Ledger};
use std::test::Fail;

// A file in which the word at each multiple of 8 is its own file offset.
fn file(alloc: Global, words: u64) -> Result<Vec<u8>, AllocError> {
    let mut bytes = Vec::new(alloc);
    for word in 0..words {
        bytes.extend_from_slice(&word.wrapping_mul(8).to_le_bytes())?;
    }
    Ok(bytes)
}

// A store whose slot Dump has such a file open, of which the read of this number is to fail, or none where it is 0,
// and the file's size. The two calls before the reads don't fail.
fn made(alloc: Global, fails: u64) -> Result<(MemStore, u64), Fail>
    ensures { IfOk result (λ r. size_in r.0 Slot.Dump ≡ Some r.1) }
{
    let mut store = MemStore::new(alloc);
    store.add("dump", &file(alloc, 0x8210)?)?;
    if fails > 0 {
        store.fail(fails.saturating_add(2))?;
    }
    opened(store)
}

// The segment that a word `PADDR+FILESZ@OFFSET` gives, or `PADDR+FILESZ+MEMSZ@OFFSET` where it has a tail.
fn segment_of(word: &str) -> Option<Segment> {
    let (paddr, rest) = word.split_once('+')?;
    let (sizes, offset) = rest.split_once('@')?;
    let (filesz, memsz) = sizes.split_once('+').unwrap_or((sizes, sizes));
    Some(Segment {
        paddr: read_hex(paddr.as_bytes())?,
        filesz: read_hex(filesz.as_bytes())?,
        memsz: read_hex(memsz.as_bytes())?,
        offset: read_hex(offset.as_bytes())?,
    })
}

fn segments_of(alloc: Global, words: &str) -> Result<Vec<Segment>, Fail> {
    let mut segments = Vec::new(alloc);
    for word in words.split_whitespace() {
        segments.push(segment_of(word).ok_or("no segment")?)?;
    }
    Ok(segments)
}

// An answer, and how many reads there were so far: `OFFSET=VALUE/READS`, or `tail=VALUE/READS`.
fn answer(
    alloc: Global,
    found: Result<PWord, FrameStop>,
    reads: u64,
) -> Result<String, AllocError> {
    match found {
        Ok(PWord { value, off }) => match off {
            Origin::File(at) => format!(in alloc; "{at:x}={value:x}/{reads}"),
            Origin::Tail => format!(in alloc; "tail={value:x}/{reads}"),
        },
        Err(FrameStop::Absent) => format!(in alloc; "absent/{reads}"),
        Err(FrameStop::Fault) => format!(in alloc; "fault/{reads}"),
    }
}

// The physical addresses that words give.
fn addresses(alloc: Global, words: &str) -> Result<Vec<u64>, Fail> {
    let mut all = Vec::new(alloc);
    for word in words.split_whitespace() {
        all.push(read_hex(word.as_bytes()).ok_or("no address")?)?;
    }
    Ok(all)
}

// How many reads there were so far, after the calls that opened the file and told its size.
fn reads_of(phys: &Phys<'_, MemStore>) -> u64 {
    phys.store.calls().saturating_sub(2)
}

// Asks for the words at physical addresses, one after the other.
fn ask<L: Ledger>(
    alloc: Global,
    store: &mut MemStore,
    room: Room,
    words: &[u64],
    blank: Blank,
) -> Result<String, AllocError>
    requires inside { AreInside (size_in store.old Slot.Dump) room.segments.items }
    requires name { blank.name ≡ L.name }
    requires parts { blank.parts ≡ L.parts }
    requires some { 0 < L.parts }
{
    let mut steps = Steps::<L>::new(blank);
    let mut phys = Phys::over(store, room);
    let mut text = String::new(alloc);
    for word in words {
        let found = phys.word(word / 8 * 8, &mut steps);
        text.push_str(&answer(alloc, found, reads_of(&phys))?)?;
        text.push_str(" ")?;
    }
    Ok(text)
}

// The answers for words of a dump with these segments, of which the read of this number is to fail. Tails are zero where
// the word `zero` comes first, and else absent.
fn told(alloc: Global, segments: &str, fails: u64, words: &str) -> Result<String, Fail> {
    let (mut store, size) = made(alloc, fails)?;
    let (tail, segments) = match segments.strip_prefix("zero ") {
        Some(rest) => (Tail::Zero, rest),
        None => (Tail::Absent, segments),
    };
    let room = Room::new(alloc, &segments_of(alloc, segments)?, tail)?;
    if !fit(&store, &room.segments, size) {
        return Err("a segment past the end".into());
    }
    let words = addresses(alloc, words)?;
    Ok(ask::<Brand>(alloc, &mut store, room, &words, Blank::new(1))?)
}

// The first read that fails, or 0; the words; and the answers. The first segment has each file offset as its
// physical address, with a last block of 20 bytes; the second one's words stand 4 bytes before a multiple of 8.
const READS: &str = "0 : 0 : 0=0/1
0 : 0 0 : 0=0/1 0=0/1
0 : 8 ff8 10 : 8=8/1 ff8=ff8/1 10=10/1
0 : 0 1000 0 1000 : 0=0/1 1000=1000/2 0=0/2 1000=1000/2
0 : 0 40000 40000 0 40000 : 0=0/1 40000=40000/2 40000=40000/2 0=0/3 40000=40000/4
0 : 100000 : ffc=100000000000/1
0 : 100000 100000 : ffc=100000000000/1 ffc=100000000000/2
0 : 0 1000 100000 8 1008 : 0=0/1 1000=1000/2 ffc=100000000000/3 8=8/3 1008=1008/3
0 : 100008 1000 100ff8 1ff8 : 1004=100800000000/1 1000=1000/1 1ff4=1ff800000000/1 1ff8=1ff8/1
0 : 41008 41000 41008 : 41008=41008/1 41000=41000/1 41008=41008/1
0 : 1000 41008 1008 : 1000=1000/1 41008=41008/2 1008=1008/3
0 : 41008 41010 41000 : 41008=41008/1 absent/1 41000=41000/1
0 : 0 200000 8 : 0=0/1 absent/1 8=8/1
1 : 0 0 0 : fault/1 0=0/2 0=0/2
2 : 0 40000 0 40000 : 0=0/1 fault/2 0=0/3 40000=40000/4
2 : 0 1000 0 1000 : 0=0/1 fault/2 0=0/2 1000=1000/3
1 : 100000 100000 : fault/1 ffc=100000000000/2
3 : 0 1000 100000 8 1008 : 0=0/1 1000=1000/2 fault/3 8=8/3 1008=1008/3";

#[test]
fn blocks_are_read_once(rt: HostRuntime) -> Result<(), Fail> {
    let mut count: usize = 0;
    for row in READS.lines() {
        let (fails, rest) = row.split_once(" : ").ok_or("no read")?;
        let (words, wanted) = rest.split_once(" : ").ok_or("no answers")?;
        let fails = read_hex(fails.as_bytes()).ok_or("no number")?;
        let segments = "0+41014@0 100000+4000@ffc";
        let answers = told(rt.alloc(), segments, fails, words)?;
        assert_eq!(rt; answers.trim_end(), wanted, "{row}");
        count = count.saturating_add(1);
    }
    assert_eq!(rt; count, 18);
    Ok(())
}

// The segments, the words, and the answers: one segment inside another, across its end, equal to it, touching it,
// and over it by less than a word; at odd addresses and file offsets; at 2^64; without a word. Then tails: absent; none,
// since the memory is as long as the bytes or shorter; across their ends; over a later segment's bytes, and one another;
// side by side within a word; up to 2^64, and past it; of 2^52 bytes.
const OVERLAPS: &str =
    "1000+100@200 1040+20@800 : 1038 1040 1058 1060 : 238=238/1 240=240/1 258=258/1 260=260/1
1040+20@800 1000+100@200 : 1038 1040 1058 1060 : 238=238/1 800=800/1 818=818/1 260=260/1
1040+40@800 1000+60@200 : ff8 1000 1038 1040 1078 1080 : absent/0 200=200/1 238=238/1 800=800/1 838=838/1 absent/1
1000+60@200 1040+40@800 : 1038 1058 1060 1078 1080 : 238=238/1 258=258/1 820=820/1 838=838/1 absent/1
1000+20@200 1000+20@800 : 1000 1018 1020 : 200=200/1 218=218/1 absent/1
1000+10@200 1000+20@800 : 1008 1010 1018 : 208=208/1 810=810/1 818=818/1
1000+20@200 1020+20@800 : 1018 1020 1038 1040 : 218=218/1 800=800/1 818=818/1 absent/1
1020+20@800 1000+20@200 : 1018 1020 1038 1040 : 218=218/1 800=800/1 818=818/1 absent/1
1000+24@200 1020+20@800 : 1018 1020 : 218=218/1 800=800/1
1020+20@800 1000+24@200 : 1018 1020 : 218=218/1 800=800/1
1000+1c@200 101c+20@800 : 1010 1018 1020 1030 1038 : 210=210/1 absent/1 804=80800000000/1 814=81800000000/1 absent/1
1004+20@200 1000+8@800 : 1000 1008 1018 1020 : 800=800/1 204=20800000000/1 214=21800000000/1 absent/1
1000+10@203 : 1000 1008 1010 : 203=2080000000000/1 20b=2100000000000/1 absent/1
fffffffffffffff0+10@200 : ffffffffffffffe8 fffffffffffffff0 fffffffffffffff8 0 : absent/0 200=200/1 208=208/1 absent/1
fffffffffffffff0+20@200 : fffffffffffffff8 0 : 208=208/1 absent/1
1000+0@200 1000+8@800 : 1000 1008 : 800=800/1 absent/1
1000+7@200 1008+f@800 : 1000 1008 1010 : absent/0 800=800/1 absent/1
 : 0 : absent/0
1020+10@800 1050+10@900 1000+80@200 : 1018 1020 1030 1048 1050 1060 1078 1080 : 218=218/1 800=800/1 230=230/1 248=248/1 900=900/1 260=260/1 278=278/1 absent/1
1010+8@900 1008+18@800 1000+28@200 : 1000 1008 1010 1018 1020 1028 : 200=200/1 800=800/1 900=900/1 810=810/1 220=220/1 absent/1
1000+28@200 1008+18@800 1010+8@900 : 1000 1008 1010 1020 : 200=200/1 208=208/1 210=210/1 220=220/1
1040+10@800 1000+20@200 1020+40@900 1000+80@a00 : 1018 1020 1038 1040 1050 1058 1060 1078 : 218=218/1 900=900/1 918=918/1 800=800/1 930=930/1 938=938/1 a60=a60/1 a78=a78/1
1000+10+20@200 : 1008 1010 : 208=208/1 absent/1
zero 1000+10+10@200 1020+10+8@200 : 1008 1010 1028 1030 : 208=208/1 absent/1 208=208/1 absent/1
zero 1000+10+20@200 : 1010 1008 1018 1020 : tail=0/0 208=208/1 tail=0/1 absent/1
zero 1004+10+20@200 : 1008 1010 1018 1020 : 204=20800000000/1 absent/1 tail=0/1 absent/1
zero 1000+8+28@200 1010+8@1800 : 1000 1008 1010 1018 1000 : 200=200/1 tail=0/1 1800=1800/2 tail=0/2 200=200/2
zero 1000+8+18@200 1008+8+18@800 : 1008 1010 1018 1020 : 800=800/1 tail=0/1 tail=0/1 absent/1
zero 1000+8+14@200 1014+0+c@200 : 1008 1010 1018 : tail=0/0 absent/0 tail=0/0
zero fffffffffffffff0+8+10@200 : fffffffffffffff0 fffffffffffffff8 0 : 200=200/1 tail=0/1 absent/1
zero fffffffffffffff0+8+ffffffffffffffff@200 : fffffffffffffff8 0 : tail=0/0 absent/0
zero 1000+8+10000000000000@200 : 1000 10000000000ff8 10000000001000 : 200=200/1 tail=0/1 absent/1";

#[test]
fn the_first_segment_counts(rt: HostRuntime) -> Result<(), Fail> {
    let mut count: usize = 0;
    for row in OVERLAPS.lines() {
        let (segments, rest) = row.split_once(" : ").ok_or("no segments")?;
        let (words, wanted) = rest.split_once(" : ").ok_or("no answers")?;
        let answers = told(rt.alloc(), segments, 0, words)?;
        assert_eq!(rt; answers.trim_end(), wanted, "{row}");
        count = count.saturating_add(1);
    }
    assert_eq!(rt; count, 32);
    Ok(())
}

// A thousand segments in falling order, each with three words, of which the last one is the segment's before it.
#[test]
fn falling_segments_are_found(rt: HostRuntime) -> Result<(), Fail> {
    let mut segments = String::new(rt.alloc());
    let mut words = String::new(rt.alloc());
    let mut wanted = String::new(rt.alloc());
    for number in 0..1000u64 {
        let pa = 16 * (999 - number);
        let off = 32 * number;
        let (next_pa, next_off, reads) = (pa + 8, off + 8, off / 4096 + 1);
        segments.push_str(&format!(in rt.alloc(); "{pa:x}+18@{off:x} ")?)?;
        words.push_str(&format!(in rt.alloc(); "{pa:x} {next_pa:x} ")?)?;
        wanted.push_str(&format!(in rt.alloc(); "{off:x}={off:x}/{reads} ")?)?;
        wanted.push_str(&format!(in rt.alloc(); "{next_off:x}={next_off:x}/{reads} ")?)?;
    }
    let answers = told(rt.alloc(), &segments, 0, &words)?;
    assert_eq!(rt; answers.as_str(), wanted.as_str());
    Ok(())
}
