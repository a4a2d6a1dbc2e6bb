// A table of process ids over a few words, by its lists.
ghost use Rattle.std.specs.Prelude.{◌≡◌, ◌<◌, ◌≤◌};

use crate::words::{NO_TYPES, field, lists_of, space_of};
use kc_btf::Btf;
use kc_by_lists::{list_pids, pid_nodes, test_pids};
use kc_found::{Asked, HShape, Items, Walked, XaShape};
use kc_view::PidShape;
use kc_word::Steps;
use std::alloc::{AllocError, Global};
use std::marker::Brand;
use std::sync::ledger::{Blank, Ledger};
use std::test::Fail;

// The table at 1000, whose xarray's head at 1008 has the process id of number 0 at 2000. Two tasks stand on its chain, at 3000 and
// 4000, each with its node 8 bytes on and `thread_pid` in its first word.
const WORDS: [(u64, u64); 9] = [
    (1008, 2000),
    (2000, 0),
    (2008, 3008),
    (3000, 2000),
    (3008, 4008),
    (3016, 2008),
    (4000, 2000),
    (4008, 0),
    (4016, 3008),
];

// Lists, and what the test answers on them, with the process ids that they give.
const CASES: [(&[&[u64]], &str); 5] = [
    (&[&[2000], &[3008, 4008]], "Ok(()) [2000]"),
    (&[&[2000], &[3008]], "Err(Unfit) [2000]"),
    (&[&[2000], &[3008, 4008], &[]], "Err(Unfit) [2000]"),
    (&[&[2004], &[3008, 4008]], "Err(Unfit) [2004]"),
    (&[], "Err(Unfit) []"),
];

fn shape() -> PidShape {
    PidShape {
        xa: XaShape {
            head: 0,
            shift: 0,
            offset: 1,
            count: 2,
            nr_values: 3,
            parent: 8,
            array: 16,
            slots: 24,
            chunk: 16,
            idr: true,
        },
        idr_rt: 8,
        nr: field(0, 32, false),
        tasks: 8,
        chain: HShape {
            first: 0,
            next: 0,
            pprev: 8,
        },
        links: 8,
        thread_pid: field(0, 64, false),
    }
}

const ASKED: Asked = Asked {
    audit: 7,
    start: 1000,
};

// What the test answers on these lists, and the process ids that they give.
fn told<L: Ledger>(
    alloc: Global,
    btf: &Btf,
    lists: &Items<Walked>,
    blank: Blank,
) -> Result<String, AllocError>
    requires name { blank.name ≡ L.name }
    requires parts { blank.parts ≡ L.parts }
    requires some { 0 < L.parts }
{
    let mut space = space_of(alloc, &[], &WORDS)?;
    let mut steps = Steps::<L>::new(blank);
    let test = test_pids(alloc, &mut space, btf, &shape(), &ASKED, lists, &mut steps);
    let pids = pid_nodes(alloc, lists).map_err(|_| AllocError)?;
    format!(in alloc; "{test:?} {:?}", pids.as_slice())
}

// The lists of the table.
fn listed<L: Ledger>(alloc: Global, btf: &Btf, blank: Blank) -> Result<Items<Walked>, AllocError>
    requires name { blank.name ≡ L.name }
    requires parts { blank.parts ≡ L.parts }
    requires some { 0 < L.parts }
{
    let mut space = space_of(alloc, &[], &WORDS)?;
    let mut steps = Steps::<L>::new(blank);
    match list_pids(alloc, &mut space, btf, &shape(), &ASKED, &mut steps) {
        Ok(lists) => Ok(lists),
        Err(_) => Err(AllocError),
    }
}

#[test]
fn lists_are_those_of_the_table_or_not(rt: HostRuntime) -> Result<(), Fail> {
    let alloc = rt.alloc();
    let btf = Btf::read(alloc, Vec::from_slice(alloc, NO_TYPES)?)?;
    for (lists, wanted) in CASES {
        let lists = lists_of(alloc, lists)?;
        let told = told::<Brand>(alloc, &btf, &lists, Blank::new(1))?;
        assert_eq!(rt; told.as_str(), wanted);
    }
    let lists = listed::<Brand>(alloc, &btf, Blank::new(1))?;
    assert_eq!(rt; lists.len(), 2);
    let told = told::<Brand>(alloc, &btf, &lists, Blank::new(1))?;
    assert_eq!(rt; told.as_str(), "Ok(()) [2000]");
    Ok(())
}
