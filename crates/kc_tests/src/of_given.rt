// A slab cache and tasks over a few words, by their lists.
ghost use Rattle.std.specs.Prelude.{◌≡◌, ◌<◌, ◌≤◌};

use crate::words::{NO_TYPES, field, lists_of, space_of};
use kc_btf::Btf;
use kc_by_lists::{cache_nodes, task_nodes, test_cache, test_tasks};
use kc_found::{Asked, Items, ListShape, Walked};
use kc_view::{Base, SlubShape, TaskShape};
use kc_word::Steps;
use std::alloc::{AllocError, Global};
use std::marker::Brand;
use std::sync::ledger::{Blank, Ledger};
use std::test::Fail;

// A cache at 1000, of objects of 64 bytes; its node at 2000; and the slab of page 100, which has two objects, both free.
const CACHE: [(u64, u64); 13] = [
    (1000, 64),
    (1008, 32),
    (1040, 2000),
    (2008, 1),
    (2016, 6416),
    (2024, 6416),
    (6408, 1000),
    (6416, 2016),
    (6424, 2016),
    (6432, 409600),
    (6440, 0x2_0000),
    (409632, 409664),
    (409696, 0),
];

// The one leader at 1000 with a child at 4000, a thread of it at 2000, and the `signal` that both share, at 3000.
const TASKS: [(u64, u64); 23] = [
    (1000, 0),
    (1008, 1008),
    (1016, 1008),
    (1024, 0),
    (1040, 4056),
    (1048, 4056),
    (1072, 1000),
    (1080, 3000),
    (1088, 2088),
    (1096, 3000),
    (2000, 0),
    (2024, 5),
    (2040, 2040),
    (2048, 2040),
    (2072, 1000),
    (2080, 3000),
    (2088, 3000),
    (2096, 1088),
    (3000, 1088),
    (3008, 2088),
    (4032, 1000),
    (4056, 1040),
    (4064, 1040),
];

// Lists, and what the test of the cache or of the tasks answers on them, with the nodes that they give.
const CACHES: [(&[&[u64]], &str); 4] = [
    (&[&[6416], &[409600, 409664]], "Ok(()) [6400]"),
    (&[&[6416], &[409600]], "Err(Unfit) [6400]"),
    (&[&[6416]], "Err(Unfit) [6400]"),
    (&[&[6416], &[409600, 409664], &[]], "Err(Unfit) [6400]"),
];

const LEADERS: [(&[&[u64]], &str); 2] = [
    (&[&[], &[1088, 2088], &[4056], &[]], "Ok(()) [1000, 2000]"),
    (
        &[&[], &[1088, 2088], &[], &[4056]],
        "Err(Unfit) [1000, 2000]",
    ),
];

// The shape of the cache: its free pointers are plain, and page descriptors of 64 bytes and physical memory begin at 0.
fn slub() -> SlubShape
    ensures cache { result.cache ≡ 0 }
    ensures knode { result.knode ≡ 0 }
    ensures slab { result.slab ≡ 0 }
{
    SlubShape {
        vmemmap: Base::Is(0),
        direct: Base::Is(0),
        nodes: 1,
        node_ids: Base::Is(1),
        random: None,
        left_pad: None,
        page_size: 64,
        cache: 0,
        size: field(0, 32, false),
        offset: field(64, 32, false),
        node: 40,
        knode: 0,
        nr_partial: field(64, 64, false),
        partial: 16,
        list: ListShape { next: 0, prev: 8 },
        slab: 0,
        slab_cache: field(64, 64, false),
        slab_list: 16,
        freelist: field(256, 64, false),
        inuse: field(320, 16, false),
        objects: field(336, 15, false),
        frozen: field(351, 1, false),
    }
}

fn tasks() -> TaskShape
    ensures { result.task ≡ 0 }
{
    TaskShape {
        task: 0,
        list: ListShape { next: 0, prev: 8 },
        tasks: 8,
        pid: field(8 * 24, 32, false),
        tgid: field(8 * 28, 32, false),
        real_parent: field(8 * 32, 64, false),
        children: 40,
        sibling: 56,
        group_leader: field(8 * 72, 64, false),
        signal: field(8 * 80, 64, false),
        thread_head: 0,
        thread_node: 88,
        stack: field(0, 64, false),
    }
}

// What the test of the cache answers on these lists, and the nodes that they give.
fn cache_told<L: Ledger>(
    alloc: Global,
    btf: &Btf,
    lists: &Items<Walked>,
    blank: Blank,
) -> Result<String, AllocError>
    requires name { blank.name ≡ L.name }
    requires parts { blank.parts ≡ L.parts }
    requires some { 0 < L.parts }
{
    let mut space = space_of(alloc, &[], &CACHE)?;
    let mut steps = Steps::<L>::new(blank);
    let asked = Asked {
        audit: 7,
        start: 1000,
    };
    let test = test_cache(alloc, &mut space, btf, &slub(), &asked, lists, &mut steps);
    let nodes = cache_nodes(alloc, &slub(), lists).map_err(|_| AllocError)?;
    format!(in alloc; "{test:?} {:?}", nodes.as_slice())
}

// What the test of the tasks answers on these lists, and the nodes that they give.
fn tasks_told<L: Ledger>(
    alloc: Global,
    btf: &Btf,
    lists: &Items<Walked>,
    blank: Blank,
) -> Result<String, AllocError>
    requires name { blank.name ≡ L.name }
    requires parts { blank.parts ≡ L.parts }
    requires some { 0 < L.parts }
{
    let mut space = space_of(alloc, &[], &TASKS)?;
    let mut steps = Steps::<L>::new(blank);
    let asked = Asked {
        audit: 7,
        start: 1000,
    };
    let test = test_tasks(alloc, &mut space, btf, &tasks(), &asked, lists, &mut steps);
    let nodes = task_nodes(alloc, &tasks(), lists).map_err(|_| AllocError)?;
    format!(in alloc; "{test:?} {:?}", nodes.as_slice())
}

#[test]
fn lists_are_taken_or_not(rt: HostRuntime) -> Result<(), Fail> {
    let alloc = rt.alloc();
    let btf = Btf::read(alloc, Vec::from_slice(alloc, NO_TYPES)?)?;
    for (lists, wanted) in CACHES {
        let lists = lists_of(alloc, lists)?;
        let told = cache_told::<Brand>(alloc, &btf, &lists, Blank::new(1))?;
        assert_eq!(rt; told.as_str(), wanted);
    }
    for (lists, wanted) in LEADERS {
        let lists = lists_of(alloc, lists)?;
        let told = tasks_told::<Brand>(alloc, &btf, &lists, Blank::new(1))?;
        assert_eq!(rt; told.as_str(), wanted);
    }
    Ok(())
}
