// A ring, a hash chain and a red-black tree over a few words.
ghost use Rattle.std.specs.Prelude.{◌≡◌, ◌<◌};

use crate::words::{list_of, space_of};
use kc_found::{HShape, ListShape, RbShape, Walked};
use kc_list::{test_chain, test_ring};
use kc_rb::{collect_tree, test_tree, turned};
use kc_word::Steps;
use std::alloc::{AllocError, Global};
use std::marker::Brand;
use std::sync::ledger::{Blank, Ledger};
use std::test::Fail;

// A ring's head at 1000 with two nodes, a hash chain's head at 4000 with two nodes, and the root at 7000 of a black node at 7100 with
// two red children. The words of a tree's node are the parent's address with the colour, the right child and the left one.
const WORDS: [(u64, u64); 21] = [
    (1000, 2000),
    (1008, 3000),
    (2000, 3000),
    (2008, 1000),
    (3000, 1000),
    (3008, 2000),
    (4000, 5000),
    (5000, 6000),
    (5008, 4000),
    (6000, 0),
    (6008, 5000),
    (7000, 7104),
    (7104, 1),
    (7112, 7304),
    (7120, 7204),
    (7204, 7104),
    (7212, 0),
    (7220, 0),
    (7304, 7104),
    (7312, 0),
    (7320, 0),
];

// A list for each of them, and what the three tests answer.
const CASES: [(&[u64], &[u64], &[u64], &str); 2] = [
    (
        &[2000, 3000],
        &[5000, 6000],
        &[7104, 7204, 0, 0, 7304, 0, 0],
        "Ok(()) Ok(()) Ok(())",
    ),
    (
        &[3000, 2000],
        &[5000],
        &[7104, 7204, 0, 0, 7304, 0],
        "Err(Unfit) Err(Unfit) Err(Unfit)",
    ),
];

const TREE: RbShape = RbShape {
    parent_color: 0,
    right: 8,
    left: 16,
    root: 0,
    leftmost: None,
    link: 0,
    key: None,
    unique: false,
};

// What the three tests answer on these lists.
fn answers<L: Ledger>(alloc: Global, lists: [&[u64]; 3], blank: Blank) -> Result<String, AllocError>
    requires name { blank.name ≡ L.name }
    requires parts { blank.parts ≡ L.parts }
    requires some { 0 < L.parts }
{
    let mut space = space_of(alloc, &[], &WORDS)?;
    let mut steps = Steps::<L>::new(blank);
    let ring = ListShape { next: 0, prev: 8 };
    let nodes = list_of(alloc, lists[0])?;
    let first = test_ring(alloc, &mut space, &ring, 1000, &nodes, &mut steps);
    let chain = HShape {
        first: 0,
        next: 0,
        pprev: 8,
    };
    let nodes = list_of(alloc, lists[1])?;
    let second = test_chain(alloc, &mut space, &chain, 4000, &nodes, &mut steps);
    let numbers = list_of(alloc, lists[2])?;
    let third = test_tree(alloc, &mut space, &TREE, 7000, &numbers, &mut steps);
    format!(in alloc; "{first:?} {second:?} {third:?}")
}

// The numbers of the tree, by its nodes from left to right.
fn numbers_by<L: Ledger>(alloc: Global, nodes: &Walked, blank: Blank) -> Result<Walked, AllocError>
    requires name { blank.name ≡ L.name }
    requires parts { blank.parts ≡ L.parts }
    requires some { 0 < L.parts }
{
    let mut space = space_of(alloc, &[], &WORDS)?;
    let mut steps = Steps::<L>::new(blank);
    match collect_tree(alloc, &mut space, &TREE, 7000, nodes, &mut steps) {
        Ok(numbers) => Ok(numbers),
        Err(_) => Err(AllocError),
    }
}

#[test]
fn lists_are_shapes_or_not(rt: HostRuntime) -> Result<(), Fail> {
    let alloc = rt.alloc();
    for (ring, chain, tree, wanted) in CASES {
        let told = answers::<Brand>(alloc, [ring, chain, tree], Blank::new(1))?;
        assert_eq!(rt; told.as_str(), wanted);
    }
    let numbers = list_of(alloc, &[7104, 7204, 0, 0, 7304, 0, 0])?;
    let nodes = turned(alloc, &numbers).map_err(|_| AllocError)?;
    assert_eq!(rt; nodes.as_slice(), [7204, 7104, 7304].as_slice());
    let collected = numbers_by::<Brand>(alloc, &nodes, Blank::new(1))?;
    assert_eq!(rt; collected.as_slice(), numbers.as_slice());
    Ok(())
}
