// An xarray over a few words, and lists of its entries.
ghost use Rattle.std.specs.Prelude.{◌≡◌, ◌<◌};

use kc_found::{ListSpace, Origin, TestStop, VWord, Walked, XaItem, XaShape, XaWalked};
use kc_word::Steps;
use kc_xa::{list_xarray, pointers_in, test_xarray, xarray_items};
use std::alloc::{AllocError, Global};
use std::marker::Brand;
use std::sync::ledger::{Blank, Ledger};
use std::test::Fail;

// The head of an xarray at 1000, which leads to a node at 8000; the bytes `shift`, `offset`, `count` and `nr_values` of that, its
// parent, its xarray, and those of its 16 slots that aren't null: a pointer, a value and another pointer.
const WORDS: [(u64, u64); 7] = [
    (1008, 8002),
    (8000, 0x103_0000),
    (8008, 0),
    (8016, 1000),
    (8032, 5000),
    (8040, 7),
    (8048, 6000),
];

// The entries of the xarray.
const ENTRIES: [u64; 17] = [8002, 0, 5000, 7, 6000, 0, 0, 0, 0, 0, 0, 0, 0, 0, 0, 0, 0];

// Its pointers, with their indexes.
const ITEMS: [XaItem; 2] = [
    XaItem {
        index: 1,
        entry: 5000,
    },
    XaItem {
        index: 3,
        entry: 6000,
    },
];

const SHAPE: XaShape = XaShape {
    head: 8,
    shift: 0,
    offset: 1,
    count: 2,
    nr_values: 3,
    parent: 8,
    array: 16,
    slots: 24,
    chunk: 16,
    idr: false,
};

// The words, and null slots. Of two words with one address the first counts.
fn space_of(alloc: Global) -> Result<ListSpace, AllocError> {
    let mut words = Vec::new(alloc);
    for (va, value) in WORDS {
        words.push(VWord {
            va,
            pa: va,
            off: Origin::File(va),
            value,
        })?;
    }
    for slot in 0..16_u64 {
        let va = slot.wrapping_mul(8).wrapping_add(8024);
        words.push(VWord {
            va,
            pa: va,
            off: Origin::File(va),
            value: 0,
        })?;
    }
    Ok(ListSpace::new(words))
}

// The first entries of the xarray, with another number in the place of one.
fn list_of(alloc: Global, count: usize, at: usize, number: u64) -> Result<Walked, AllocError> {
    let mut list = Walked::new(alloc);
    for (i, entry) in ENTRIES.iter().take(count).enumerate() {
        let next = if i == at { number } else { *entry };
        list.push(next).map_err(|_| AllocError)?;
    }
    Ok(list)
}

// What the test answers on a list.
fn answer<L: Ledger>(alloc: Global, list: &Walked, blank: Blank) -> Result<bool, AllocError>
    requires name { blank.name ≡ L.name }
    requires parts { blank.parts ≡ L.parts }
    requires some { 0 < L.parts }
{
    let mut space = space_of(alloc)?;
    let mut steps = Steps::<L>::new(blank);
    match test_xarray(alloc, &mut space, &SHAPE, 1000, list, &mut steps) {
        Ok(()) => Ok(true),
        Err(TestStop::Unfit) => Ok(false),
        Err(_) => Err(AllocError),
    }
}

// The pointers among the entries of a list, with their indexes.
fn items<L: Ledger>(alloc: Global, list: &Walked, blank: Blank) -> Result<XaWalked, AllocError>
    requires name { blank.name ≡ L.name }
    requires parts { blank.parts ≡ L.parts }
    requires some { 0 < L.parts }
{
    let mut space = space_of(alloc)?;
    let mut steps = Steps::<L>::new(blank);
    xarray_items(alloc, &mut space, &SHAPE, 1000, list, &mut steps).map_err(|_| AllocError)
}

// The list that is made.
fn made<L: Ledger>(alloc: Global, blank: Blank) -> Result<Walked, AllocError>
    requires name { blank.name ≡ L.name }
    requires parts { blank.parts ≡ L.parts }
    requires some { 0 < L.parts }
{
    let mut space = space_of(alloc)?;
    let mut steps = Steps::<L>::new(blank);
    list_xarray(alloc, &mut space, &SHAPE, 1000, &mut steps).map_err(|_| AllocError)
}

#[test]
fn entries_are_an_xarray_or_not(rt: HostRuntime) -> Result<(), Fail> {
    let alloc = rt.alloc();
    for (count, at, number, wanted) in [
        (17, 0, 8002, true),
        (17, 1, 4, false),
        (17, 2, 5004, false),
        (16, 0, 8002, false),
    ] {
        let list = list_of(alloc, count, at, number)?;
        let fits = answer::<Brand>(alloc, &list, Blank::new(1))?;
        assert_eq!(rt; fits, wanted, "{count} {at} {number}");
    }
    let list = made::<Brand>(alloc, Blank::new(1))?;
    assert_eq!(rt; list.as_slice(), ENTRIES.as_slice());
    let found = pointers_in(alloc, &list).map_err(|_| AllocError)?;
    assert_eq!(rt; found.as_slice(), [5000, 6000].as_slice());
    let items = items::<Brand>(alloc, &list, Blank::new(1))?;
    assert_eq!(rt; items.as_slice(), ITEMS.as_slice());
    Ok(())
}
