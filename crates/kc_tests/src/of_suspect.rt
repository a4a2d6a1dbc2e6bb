// Each way of suspecting once, over a few words: how many suspects there are, the first of them and the last. Further cases are those of the
// programs that explain a report.
ghost use Rattle.std.specs.Prelude.{◌≡◌, ◌<◌, ◌≤◌, false};
ghost use Rattle.kc_found.specs.Violations.{is_of_reading};

use crate::words::{field, space_of};
use kc_found::{
    Asked, HShape, ListShape, Origin, RbShape, Rule, VWord, WalkStop, XaShape, broken_at,
};
use kc_kinds::Kind;
use kc_repair::{Suspects, suspects};
use kc_view::{Base, SlubShape, TaskShape};
use kc_word::Steps;
use std::alloc::{AllocError, Global};
use std::marker::Brand;
use std::sync::ledger::{Blank, Ledger};
use std::test::Fail;

// A ring's head at 1000 and its nodes; a hash chain's head at 5000 and its nodes; a tree's head at 8000 and its nodes, each with its
// parent, right and left child, of which the first is black and two are red; a word of an xarray's node at 9000; a task at 10000; a cache
// of objects of 64 bytes at 11000, with a free one at 12000.
const WORDS: [(u64, u64); 29] = [
    (1000, 2000),
    (1008, 4000),
    (2000, 3000),
    (2008, 1000),
    (3000, 4000),
    (3008, 2000),
    (4000, 1000),
    (4008, 3000),
    (5000, 6000),
    (6000, 7000),
    (6008, 5000),
    (7000, 0),
    (7008, 6000),
    (8000, 8128),
    (8128, 1),
    (8136, 8304),
    (8144, 8200),
    (8200, 8128),
    (8208, 0),
    (8216, 0),
    (8304, 8128),
    (8312, 0),
    (8320, 0),
    (9000, 0x33_0000),
    (10016, 0x8_0000_0007),
    (10024, 0),
    (11000, 0x20_0000_0040),
    (11008, 0x5555),
    (12032, 9),
];

const POISON: u64 = 0xdead_0000_0000_0100;

fn word(va: u64, value: u64) -> VWord {
    VWord {
        va,
        pa: va,
        off: Origin::File(va),
        value,
    }
}

// A violation of a walk from `start` that one word shows.
fn broken(
    alloc: Global,
    rule: Rule,
    start: u64,
    shown: (u64, u64),
    expected: Option<u64>,
) -> WalkStop
    requires { is_of_reading rule ≡ false }
{
    let asked = Asked { audit: 0, start };
    broken_at(alloc, &asked, rule, &word(shown.0, shown.1), expected)
}

fn text(alloc: Global, suspected: &Suspects) -> Result<String, AllocError> {
    let listed = suspected.as_slice();
    match (listed.first(), listed.last()) {
        (Some(a), Some(b)) => {
            let count = listed.len();
            format!(in alloc; "{count}: {}={} {}={}", a.va, a.value, b.va, b.value)
        }
        _ => String::from_str(alloc, "none"),
    }
}

// What is suspected of a violation where some words are changed.
fn told<L: Ledger>(
    alloc: Global,
    kind: Kind,
    changed: &[(u64, u64)],
    stop: WalkStop,
    blank: Blank,
) -> Result<String, AllocError>
    requires name { blank.name ≡ L.name }
    requires parts { blank.parts ≡ L.parts }
    requires some { 0 < L.parts }
{
    let WalkStop::Broken(found) = stop else {
        return String::from_str(alloc, "no violation");
    };
    let mut space = space_of(alloc, changed, &WORDS)?;
    let mut steps = Steps::<L>::new(blank);
    match suspects(alloc, &kind, &found, &mut space, &mut steps) {
        Ok(suspected) => text(alloc, &suspected),
        Err(_) => String::from_str(alloc, "no answer"),
    }
}

fn ring() -> Kind {
    Kind::Ring(ListShape { next: 0, prev: 8 })
}

#[test]
fn of_rings(rt: HostRuntime) -> Result<(), Fail> {
    let alloc = rt.alloc();
    let changed = [(3000, POISON)];
    let stop = broken(alloc, Rule::K, 1000, (3000, POISON), None);
    let taken = told::<Brand>(alloc, ring(), &changed, stop, Blank::new(1))?;
    assert_eq!(rt; taken.as_str(), "65: 3000=4000 3000=6822109010536169728");

    // 3000 was taken out and leads to itself, but the `next` of 2000 still leads to it.
    let changed = [(3000, 3000), (3008, 3000), (4008, 2000)];
    let stop = broken(alloc, Rule::L1, 1000, (3008, 3000), Some(2000));
    let passed = told::<Brand>(alloc, ring(), &changed, stop, Blank::new(1))?;
    assert_eq!(rt; passed.as_str(), "2: 2000=4000 3008=2000");
    Ok(())
}

fn chain() -> Kind {
    Kind::Hlist(HShape {
        first: 0,
        next: 0,
        pprev: 8,
    })
}

#[test]
fn of_hash_chains(rt: HostRuntime) -> Result<(), Fail> {
    let alloc = rt.alloc();
    // The word at 5000 is the `pprev` of a node at 4992, as numbers go, which points back; then the `pprev` that is expected.
    let stop = broken(alloc, Rule::H1, 5000, (7008, 1), Some(6000));
    let pointed = told::<Brand>(alloc, chain(), &[(7008, 1)], stop, Blank::new(1))?;
    assert_eq!(rt; pointed.as_str(), "2: 6000=4992 7008=6000");
    Ok(())
}

fn tree() -> Kind {
    Kind::Rbtree(RbShape {
        parent_color: 0,
        right: 8,
        left: 16,
        root: 0,
        leftmost: None,
        link: 0,
        key: None,
        unique: false,
    })
}

#[test]
fn of_trees(rt: HostRuntime) -> Result<(), Fail> {
    let alloc = rt.alloc();
    // The other child points back to the parent too. The node is red, or black, or the link to it has another bit; that comes first where the node
    // hangs below another one.
    let stop = broken(alloc, Rule::R1, 8000, (8200, 13), Some(8128));
    let parent = told::<Brand>(alloc, tree(), &[(8200, 13)], stop, Blank::new(1))?;
    assert_eq!(rt; parent.as_str(), "67: 8144=8304 8144=9223372036854784008");

    let stop = broken(alloc, Rule::R1, 8000, (8200, 8304), Some(8128));
    let changed = [(8200, 8304), (8312, 8200)];
    let link = told::<Brand>(alloc, tree(), &changed, stop, Blank::new(1))?;
    assert_eq!(rt; link.as_str(), "67: 8144=8304 8200=8129");

    let stop = broken(alloc, Rule::R2, 8000, (8128, 0), Some(1));
    let red = told::<Brand>(alloc, tree(), &[(8128, 0)], stop, Blank::new(1))?;
    assert_eq!(rt; red.as_str(), "68: 8000=8129 8304=8129");

    let stop = broken(alloc, Rule::R5, 8000, (8312, 0), Some(2));
    let balance = told::<Brand>(alloc, tree(), &[], stop, Blank::new(1))?;
    assert_eq!(rt; balance.as_str(), "3: 8128=0 8304=8129");

    // The word at 8136 has the parent of the link: as a number it is a node that points back, one bit off and in the same 4096 bytes.
    let stop = broken(alloc, Rule::A, 8000, (8128, 1), None);
    let met = told::<Brand>(alloc, tree(), &[(8312, 8128)], stop, Blank::new(1))?;
    assert_eq!(rt; met.as_str(), "67: 8312=8136 8312=0");

    let stop = broken(alloc, Rule::R4, 8000, (8208, 0), Some(7));
    let key = told::<Brand>(alloc, tree(), &[], stop, Blank::new(1))?;
    assert_eq!(rt; key.as_str(), "64: 8208=1 8208=9223372036854775808");
    Ok(())
}

fn xarray() -> Kind {
    Kind::Xarray(XaShape {
        head: 0,
        shift: 0,
        offset: 1,
        count: 2,
        nr_values: 3,
        parent: 8,
        array: 16,
        slots: 24,
        chunk: 16,
        idr: false,
    })
}

#[test]
fn of_xarrays(rt: HostRuntime) -> Result<(), Fail> {
    let alloc = rt.alloc();
    // The byte at 9002 is the third of the word at 9000. The first slot leads nowhere, and the second to a word.
    let slots = [(9024, 0x41), (9032, 5000)];
    let stop = broken(alloc, Rule::X5, 9000, (9002, 0), Some(0x32));
    let count = told::<Brand>(alloc, xarray(), &slots, stop, Blank::new(1))?;
    assert_eq!(rt; count.as_str(), "2: 9024=0 9000=3276800");

    // The byte, and the whole word: of a node below another with this shift, and of the top node with each.
    let stop = broken(alloc, Rule::X1, 9000, (9000, 0x33_0000), Some(6));
    let below = told::<Brand>(alloc, xarray(), &slots, stop, Blank::new(1))?;
    assert_eq!(rt; below.as_str(), "2: 9000=3342342 9000=16908294");

    let stop = broken(alloc, Rule::X1, 9000, (9000, 0x33_0000), None);
    let top = told::<Brand>(alloc, xarray(), &slots, stop, Blank::new(1))?;
    assert_eq!(rt; top.as_str(), "16: 9000=16908288 9000=16908348");

    let stop = broken(alloc, Rule::X7, 9000, (9000, 0x33_0000), None);
    let entry = told::<Brand>(alloc, xarray(), &[], stop, Blank::new(1))?;
    assert_eq!(rt; entry.as_str(), "64: 9000=3342340 9000=0");
    Ok(())
}

fn tasks() -> Kind {
    Kind::Tasks(TaskShape {
        task: 0,
        list: ListShape { next: 0, prev: 8 },
        tasks: 0,
        pid: field(8 * 16, 32, true),
        tgid: field(8 * 20, 32, true),
        real_parent: field(8 * 24, 64, true),
        children: 40,
        sibling: 56,
        group_leader: field(8 * 24, 64, true),
        signal: field(8 * 24, 64, true),
        thread_head: 0,
        thread_node: 80,
        stack: field(8 * 32, 64, true),
    })
}

#[test]
fn of_tasks(rt: HostRuntime) -> Result<(), Fail> {
    let alloc = rt.alloc();
    let stop = broken(alloc, Rule::T2, 10000, (10016, 0x8_0000_0007), Some(8));
    let own = told::<Brand>(alloc, tasks(), &[], stop, Blank::new(1))?;
    assert_eq!(rt; own.as_str(), "2: 10016=30064771079 10016=34359738376");

    let stop = broken(alloc, Rule::T1, 10000, (10024, 0), Some(10000));
    let leader = told::<Brand>(alloc, tasks(), &[], stop, Blank::new(1))?;
    assert_eq!(rt; leader.as_str(), "1: 10024=10000 10024=10000");

    let stop = broken(alloc, Rule::T6, 10000, (10024, 0), Some(0x57ac_6e9d));
    let end = told::<Brand>(alloc, tasks(), &[], stop, Blank::new(1))?;
    assert_eq!(rt; end.as_str(), "1: 10024=1470918301 10024=1470918301");
    Ok(())
}

fn caches(direct: Base) -> Kind {
    Kind::Slub(SlubShape {
        vmemmap: Base::Is(0),
        direct,
        page_size: 64,
        cache: 0,
        size: field(0, 32, true),
        offset: field(32, 32, true),
        random: Some(field(64, 64, true)),
        left_pad: None,
        node: 40,
        nodes: 1,
        node_ids: Base::Is(1),
        knode: 0,
        nr_partial: field(64, 64, true),
        partial: 16,
        list: ListShape { next: 0, prev: 8 },
        slab: 0,
        slab_cache: field(64, 64, true),
        slab_list: 16,
        freelist: field(256, 64, true),
        inuse: field(320, 16, true),
        objects: field(336, 15, true),
        frozen: field(351, 1, true),
    })
}

#[test]
fn of_slab_caches(rt: HostRuntime) -> Result<(), Fail> {
    let alloc = rt.alloc();
    // The last bytes of the pointer's address are the first of what it is encoded with: 12032 is 0x2f00.
    let stop = broken(alloc, Rule::U5, 11000, (12032, 9), None);
    let free = told::<Brand>(alloc, caches(Base::Is(0)), &[], stop, Blank::new(1))?;
    assert_eq!(rt;
        free.as_str(),
        "194: 12032=13229323905422677 12032=9223372036854775817"
    );

    // The descriptor at 12000 is that of page 187, whose slab has two objects of the cache.
    let slab = [(12008, 11000), (12040, 0x2_0000)];
    let stop = broken(alloc, Rule::U5, 11000, (12032, 9), None);
    let head = told::<Brand>(alloc, caches(Base::Is(0)), &slab, stop, Blank::new(1))?;
    assert_eq!(rt; head.as_str(), "67: 12032=0 12032=9223372036854775817");

    // The word at 1008 says where physical memory begins.
    let stop = broken(alloc, Rule::U4, 11000, (12032, 9), None);
    let base = told::<Brand>(alloc, caches(Base::At(1008)), &[], stop, Blank::new(1))?;
    assert_eq!(rt; base.as_str(), "130: 12032=8 1008=18379471554275704832");
    Ok(())
}
