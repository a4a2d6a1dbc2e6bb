// A made dump of which one word is damaged, and suspects that are tried.
ghost use Rattle.std.specs.Prelude.{◌≡◌, ◌<◌, Some, IfOk, length};
ghost use Rattle.kc_outside.specs.MemStore.{size_in};
ghost use Rattle.kc_plan.specs.Inside.{AreInside as TypesAreInside};

use crate::dumps::{fit, opened};
use kc_btf::Btf;
use kc_fixture::{MAP, btf_file, core_file, set_word};
use kc_found::{ReadFailed, Rule};
use kc_notes::Info;
use kc_outside::{MemStore, Slot};
use kc_plan::{PlanStop, read_plan};
use kc_repair::{Breach, Repair, RootAudit, Suspect, repair};
use kc_run::root_at;
use kc_syms::Symbols;
use kc_word::{PageCfg, Segment};
use std::alloc::{AllocError, Global};
use std::test::Fail;

// The tasks, and the threads of each.
const PLAN: &[u8] = b"version = 1
[[audit]]
name = 'tasks'
kind = 'ring'
root = 'init_task'
root_type = 'task_struct'
root_path = 'tasks'
element = 'task_struct'
link = 'tasks'
each = ['threads']
[[audit]]
name = 'threads'
kind = 'ring'
from = 'signal->thread_head'
element = 'task_struct'
link = 'thread_node'
";

const INFO: Info = Info {
    table: 0x1000,
    five: false,
    sme: 0,
    kaslr: 0,
    phys_base: 0,
};

const PAGING: PageCfg = PageCfg {
    table: 0x1000,
    five: false,
    sme: 0,
};

const SEGMENTS: [Segment; 2] = [
    Segment {
        paddr: 0,
        filesz: 0x10000,
        memsz: 0x10000,
        offset: 0x2000,
    },
    Segment {
        paddr: 0x10000,
        filesz: 0x10000,
        memsz: 0x10000,
        offset: 0x12000,
    },
];

const DIRECT: u64 = 0xffff_8880_0000_0000;

// The `prev` of the first thread, which is damaged, and what it held.
const DAMAGED: u64 = 0xd060;

const HELD: u64 = DIRECT + 0xd080;

// Suspects, each a physical address and a value, and what is told of them: the word that repairs, or how many were tried, and
// what the first leads to that leads elsewhere.
const CASES: [(&[(u64, u64)], &str); 4] = [
    (&[(DAMAGED, HELD)], "stands f060 ffff88800000d080"),
    (
        &[
            (DAMAGED, HELD + 8),
            (0xd058, 0),
            (DAMAGED, HELD),
            (DAMAGED, HELD),
        ],
        "stands f060 ffff88800000d080",
    ),
    (
        &[(DAMAGED, HELD + 8), (0xb010, 0), (0xd050, 0)],
        "nothing 3 false L1 ffffffff8000b010 d010",
    ),
    (&[], "nothing 0 false"),
];

// The dump with a word damaged, open in a store, and its size.
fn made(alloc: Global) -> Result<(MemStore, u64), Fail>
    ensures { IfOk result (λ r. size_in r.0 Slot.Dump ≡ Some r.1) }
{
    let mut bytes = core_file(alloc)?;
    set_word(&mut bytes, DAMAGED, 0);
    let mut store = MemStore::new(alloc);
    store.add("dump", &bytes)?;
    opened(store)
}

fn suspects_of(alloc: Global, words: &[(u64, u64)]) -> Result<Vec<Suspect>, AllocError> {
    let mut suspects = Vec::new(alloc);
    for (pa, value) in words {
        suspects.push(Suspect {
            va: DIRECT.wrapping_add(*pa),
            pa: *pa,
            off: pa.wrapping_add(0x2000),
            now: 0,
            value: *value,
        })?;
    }
    Ok(suspects)
}

fn told(alloc: Global, repair: Result<Repair, ReadFailed>) -> Result<String, AllocError> {
    match repair {
        Ok(Repair::Stands(s)) => format!(in alloc; "stands {:x} {:x}", s.off, s.value),
        Ok(
            Repair::Nothing {
                tried,
                more,
                then: Some(next),
            },
        ) => {
            let off = next.suspect.off;
            format!(in alloc;
                "nothing {tried} {more} {:?} {:x} {off:x}",
                next.rule, next.at
            )
        }
        Ok(
            Repair::Nothing {
                tried,
                more,
                then: None,
            },
        ) => format!(in alloc; "nothing {tried} {more}"),
        Err(ReadFailed::Fault) => String::from_str(alloc, "failed"),
        Err(ReadFailed::NoMemory) => String::from_str(alloc, "out of memory"),
    }
}

// Tries suspects over the damaged dump.
fn tried(alloc: Global, audit: &RootAudit<'_>, words: &[(u64, u64)]) -> Result<String, Fail>
    requires root { audit.now.root.audit < length audit.now.plan.now.audits }
    requires types { TypesAreInside (length audit.now.types.now.records) audit.now.plan.now.audits }
{
    let (mut store, size) = made(alloc)?;
    let suspects = suspects_of(alloc, words)?;
    let found = Breach {
        rule: Rule::L1,
        at: DIRECT + DAMAGED,
    };
    if fit(&store, &SEGMENTS, size) {
        let repair = repair(
            alloc, &mut store, &SEGMENTS, PAGING, audit, found, &suspects,
        );
        Ok(told(alloc, repair)?)
    } else {
        Ok(String::from_str(alloc, "outside")?)
    }
}

#[test]
fn the_first_that_repairs_is_told(rt: HostRuntime) -> Result<(), Fail> {
    let alloc = rt.alloc();
    let types = Btf::read(alloc, btf_file(alloc)?)?;
    let symbols = Symbols::read(alloc, MAP.as_bytes())?;
    match read_plan(alloc, PLAN, &types, &symbols, &INFO) {
        Ok(plan) => {
            let root = root_at(&plan, 0);
            assert!(rt; root.is_some() && root_at(&plan, 1).is_none());
            if let Some(root) = root {
                let audit = RootAudit {
                    plan: &plan,
                    types: &types,
                    root,
                };
                for (words, wanted) in CASES {
                    let told = tried(alloc, &audit, words)?;
                    assert_eq!(rt; told.as_str(), wanted);
                }
            }
        }
        Err(PlanStop::Fault(_) | PlanStop::NoMemory) => assert!(rt; false, "refused"),
    }
    Ok(())
}
