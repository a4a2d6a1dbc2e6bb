// A value in a small file.
ghost use Rattle.std.specs.Prelude.{◌≡◌, Some, IfOk};
ghost use Rattle.kc_outside.specs.MemStore.{size_in};

use crate::dumps::opened;
use kc_outside::{MemStore, Slot};
use kc_sight::{FoundWord, Sought, WordPlace, Writing, find_words};
use kc_slub::decode;
use kc_word::Segment;
use std::alloc::Global;
use std::test::Fail;

// A file of these words, which is opened.
fn made(alloc: Global, words: &[u64]) -> Result<(MemStore, u64), Fail>
    ensures { IfOk result (λ r. size_in r.0 Slot.Dump ≡ Some r.1) }
{
    let mut bytes = Vec::new(alloc);
    for word in words {
        bytes.extend_from_slice(&word.to_le_bytes())?;
    }
    let mut store = MemStore::new(alloc);
    store.add("dump", &bytes)?;
    opened(store)
}

// The halves of some numbers, so that two words in a row are the same.
fn halves(alloc: Global) -> Result<Vec<u64>, Fail> {
    let mut words = Vec::new(alloc);
    for number in 0_u64..0x4000 {
        words.push(number / 2)?;
    }
    Ok(words)
}

// One more block than is read at once, and a segment that begins between two words and holds both.
const SEGMENTS: [Segment; 2] = [
    Segment {
        paddr: 0x1000,
        filesz: 0x1_0010,
        memsz: 0x1_0010,
        offset: 0,
    },
    Segment {
        paddr: 0x2_0004,
        filesz: 0x20,
        memsz: 0x20,
        offset: 0xfffc,
    },
];

#[test]
fn each_word_that_holds_the_value_is_found(rt: HostRuntime) -> Result<(), Fail> {
    let words = halves(rt.alloc())?;
    let (mut store, size) = made(rt.alloc(), &words)?;
    assert!(&rt; size >= 0x1_001c);
    let sought = Sought::new(rt.alloc(), 0x1000, 0, Vec::new(rt.alloc()))?;
    let found = find_words(rt.alloc(), &mut store, &SEGMENTS, &sought)?;
    let mut places = found
        .as_slice()
        .iter()
        .map(|word| (word.place.pa, word.place.off));
    for wanted in [
        (0x1_1000, 0x1_0000),
        (0x1_1008, 0x1_0008),
        (0x2_0008, 0x1_0000),
        (0x2_0010, 0x1_0008),
    ] {
        assert_eq!(rt; places.next(), Some(wanted));
    }
    assert_eq!(rt; places.next(), None);
    Ok(())
}

const DIRECT: u64 = 0xffff_8880_0000_0000;

const OBJECT: u64 = DIRECT + 0x5000;

const RANDOM: u64 = 0x1234_5678_9abc_def1;

// Three words, at 0x1000 and after it.
const FREE: [Segment; 1] = [Segment {
    paddr: 0x1000,
    filesz: 24,
    memsz: 24,
    offset: 0,
}];

#[test]
fn a_free_pointer_is_found_by_its_cache(rt: HostRuntime) -> Result<(), Fail> {
    let encoded = decode(OBJECT, RANDOM, DIRECT + 0x1008);
    let elsewhere = decode(OBJECT, RANDOM, DIRECT);
    let (mut store, size) = made(rt.alloc(), &[elsewhere, encoded, OBJECT])?;
    assert!(&rt; size >= 24);
    let mut randoms = Vec::new(rt.alloc());
    randoms.extend_from_slice(&[7, RANDOM])?;
    let sought = Sought::new(rt.alloc(), OBJECT, DIRECT, randoms)?;
    let found = find_words(rt.alloc(), &mut store, &FREE, &sought)?;
    let wanted = [
        FoundWord {
            place: WordPlace { pa: 0x1008, off: 8 },
            value: encoded,
            writing: Writing::Encoded(RANDOM),
        },
        FoundWord {
            place: WordPlace {
                pa: 0x1010,
                off: 16,
            },
            value: OBJECT,
            writing: Writing::Plain,
        },
    ];
    assert!(&rt; found.as_slice() == wanted.as_slice());
    Ok(())
}
