// Certificates that are read, written and cut short, one that is held against a few words, one that is made of them, and some that
// are held against a long ring, whose reads are counted.
ghost use Rattle.std.specs.Prelude.{◌≡◌, ◌<◌, length, IfSome, None, []};
ghost use Rattle.std.proofs.Common.{lit≤};
ghost use Rattle.kc_plan.specs.Inside.{AreInside};

use kc_btf::Btf;
use kc_cert::{
    CertAnswer, CertRead, CertStep, CertStop, Certificate, Lists, cert_text, certify, read_cert,
    recheck,
};
use kc_fixture::{MAP, btf_file};
use kc_found::{Counts, ListSpace, Origin, ReadFailed, Space, VWord, Walked};
use kc_mem::Memory;
use kc_memory::{FrameStop, Frames, PWord};
use kc_notes::Info;
use kc_plan::{Plan, read_plan};
use kc_syms::Symbols;
use kc_word::{NoMemory, PageCfg, Steps};
use std::alloc::{AllocError, Global};
use std::marker::Brand;
use std::sync::ledger::{Blank, Ledger};
use std::test::Fail;

const THREE_NODES: &[u8] = b"certificate 1
step 0 start ffffffff8000b120 lists 1
list 3
ffff888000011000
ffff888000011040
ffff888000011080
";

#[test]
fn a_certificate_is_read_and_written(rt: HostRuntime) -> Result<(), Fail> {
    let cert = read_cert(rt.alloc(), THREE_NODES)?;
    let text = cert_text(rt.alloc(), &cert)?;
    assert_eq!(rt; text.as_slice(), THREE_NODES);
    Ok(())
}

#[test]
fn a_text_is_refused_where_it_stops(rt: HostRuntime) -> Result<(), Fail> {
    let cut = &THREE_NODES[..109];
    assert!(rt; matches!(read_cert(rt.alloc(), cut), Err(CertRead::Z1(109))));
    // The first number of an audit that is too large, at the digit that makes it so.
    let large = b"certificate 1\nstep 4294967296 start ";
    assert!(rt; matches!(read_cert(rt.alloc(), large), Err(CertRead::Z1(28))));
    // A count that no memory holds begins some certificate's text.
    let many = b"certificate 18446744073709551615";
    assert!(rt; matches!(read_cert(rt.alloc(), many), Err(CertRead::Z1(32))));
    Ok(())
}

// The two maps of physical memory.
const IMAGE: u64 = 0xffff_ffff_8000_0000;

const DIRECT: u64 = 0xffff_8880_0000_0000;

// A ring of one task, whose signal has a ring of two threads. Each word is at a physical address.
const WORDS: [(u64, u64); 11] = [
    (0xb008, DIRECT + 0xd008),
    (0xb010, DIRECT + 0xd008),
    (0xd008, IMAGE + 0xb008),
    (0xd010, IMAGE + 0xb008),
    (0xd050, DIRECT + 0xd080),
    (0xd080, DIRECT + 0xd058),
    (0xd088, DIRECT + 0xd158),
    (0xd058, DIRECT + 0xd158),
    (0xd060, DIRECT + 0xd080),
    (0xd158, DIRECT + 0xd080),
    (0xd160, DIRECT + 0xd058),
];

const PLAN: &str = "version = 1
[[audit]]
name = 'g'
kind = 'ring'
root = 'init_task'
root_type = 'task_struct'
root_path = 'tasks'
element = 'task_struct'
link = 'tasks'
each = ['t']
[[audit]]
name = 't'
kind = 'ring'
from = 'signal->thread_head'
element = 'task_struct'
link = 'thread_node'
";

const INFO: Info = Info {
    table: 0x1000,
    five: false,
    sme: 0,
    kaslr: 0,
    phys_base: 0,
};

// The plan of a text, over the types and symbols of the made dump.
fn plan_of(alloc: Global, text: &str, btf: &Btf) -> Option<Plan>
    ensures { IfSome result (λ plan. AreInside (length btf.now.records) plan.audits) }
{
    let symbols = Symbols::read(alloc, MAP.as_bytes()).ok()?;
    read_plan(alloc, text.as_bytes(), btf, &symbols, &INFO).ok()
}

const TASK: &str = "step 0 start ffffffff8000b008 lists 1\nlist 1\nffff88800000d008\n";

const THREADS: &str =
    "step 1 start ffff88800000d080 lists 1\nlist 2\nffff88800000d058\nffff88800000d158\n";

// How many steps, and which; a word that is changed, if it has an address of these; and the answer.
const CASES: [(u64, &str, &str, u64, u64, &str); 5] = [
    (2, TASK, THREADS, 0, 0, "yes 1 1 1 2"),
    (1, TASK, "", 0, 0, "no 2"),
    (1, THREADS, "", 0, 0, "no 1"),
    (2, TASK, THREADS, 0xd158, 0, "no 2"),
    (0, "", "", 0xb008, IMAGE + 0xb008, "no 1"),
];

// Each word by its two addresses. Of two words with one address the first counts.
fn space_of(alloc: Global, changed: (u64, u64)) -> Result<ListSpace, AllocError> {
    let mut words = Vec::new(alloc);
    for (pa, value) in [[changed].as_slice(), WORDS.as_slice()]
        .iter()
        .copied()
        .flatten()
    {
        for map in [IMAGE, DIRECT] {
            words.push(VWord {
                va: map.wrapping_add(*pa),
                pa: *pa,
                off: Origin::File(*pa),
                value: *value,
            })?;
        }
    }
    Ok(ListSpace::new(words))
}

fn yes_text(alloc: Global, counts: &Counts) -> Result<String, AllocError> {
    let mut text = String::from_str(alloc, "yes")?;
    for count in counts.as_slice() {
        write!(&mut text, " {} {}", count.walks, count.elements)?;
    }
    Ok(text)
}

fn answer<S: Space, L: Ledger>(
    alloc: Global,
    plan: &Plan,
    btf: &Btf,
    space: &mut S,
    cert: &Certificate,
    blank: Blank,
) -> Result<String, AllocError>
    requires name { blank.name ≡ L.name }
    requires parts { blank.parts ≡ L.parts }
    requires some { 0 < L.parts }
    requires types { AreInside (length btf.now.records) plan.now.audits }
{
    let mut steps = Steps::<L>::new(blank);
    match recheck(alloc, plan, btf, space, cert, &mut steps) {
        Ok(CertAnswer::Yes(counts)) => yes_text(alloc, &counts),
        Ok(CertAnswer::No(number)) => format!(in alloc; "no {number}"),
        Err(ReadFailed::Fault | ReadFailed::NoMemory) => String::from_str(alloc, "no answer"),
    }
}

// The text of the certificate, or the violation's audit and address.
fn certified<L: Ledger>(
    alloc: Global,
    plan: &Plan,
    btf: &Btf,
    space: &mut ListSpace,
    blank: Blank,
) -> Result<Vec<u8>, AllocError>
    requires name { blank.name ≡ L.name }
    requires parts { blank.parts ≡ L.parts }
    requires some { 0 < L.parts }
    requires types { AreInside (length btf.now.records) plan.now.audits }
{
    let mut steps = Steps::<L>::new(blank);
    match certify(alloc, plan, btf, space, &mut steps) {
        Ok(cert) => cert_text(alloc, &cert).map_err(|_| AllocError),
        Err(CertStop::Broken(found)) => {
            let text = format!(in alloc; "broken {} {:x}", found.audit, found.at)?;
            Ok(text.into_bytes())
        }
        Err(CertStop::Fault | CertStop::NoMemory) => Ok(Vec::new(alloc)),
    }
}

#[test]
fn a_certificate_is_made_of_a_clean_dump(rt: HostRuntime) -> Result<(), Fail> {
    let alloc = rt.alloc();
    let btf = Btf::read(alloc, btf_file(alloc)?)?;
    let Some(plan) = plan_of(alloc, PLAN, &btf) else {
        assert!(rt; false, "refused");
        return Ok(());
    };
    let clean = format!(in alloc; "certificate 2\n{TASK}{THREADS}")?;
    for (at, value, wanted) in [
        (0, 0, clean.as_str()),
        (0xd158, 0, "broken 1 ffff88800000d158"),
    ] {
        let mut space = space_of(alloc, (at, value))?;
        let text = certified::<Brand>(alloc, &plan, &btf, &mut space, Blank::new(1))?;
        assert_eq!(rt; text.as_slice(), wanted.as_bytes());
    }
    Ok(())
}

#[test]
fn steps_fit_or_not(rt: HostRuntime) -> Result<(), Fail> {
    let alloc = rt.alloc();
    let btf = Btf::read(alloc, btf_file(alloc)?)?;
    let Some(plan) = plan_of(alloc, PLAN, &btf) else {
        assert!(rt; false, "refused");
        return Ok(());
    };
    for (count, first, second, at, value, wanted) in CASES {
        let text = format!(in alloc; "certificate {count}\n{first}{second}")?;
        let cert = read_cert(alloc, text.as_bytes())?;
        let mut space = space_of(alloc, (at, value))?;
        let found = answer::<ListSpace, Brand>(
            alloc,
            &plan,
            &btf,
            &mut space,
            &cert,
            Blank::new(1),
        )?;
        assert_eq!(rt; found.as_str(), wanted, "{count} {at:x}={value:x}");
    }
    Ok(())
}

const RING_PLAN: &str = "version = 1
[[audit]]
name = 'r'
kind = 'ring'
root = 'my_ring'
element = 'item'
link = 'link'
";

// How many nodes the long ring has, where its head is, and its first node; each node takes 16 bytes.
const NODES: u64 = 100_000;

const HEAD: u64 = IMAGE + 0xb120;

const FIRST: u64 = DIRECT + 0x10_0000;

// The physical memory of a ring of many nodes, with its page tables. It counts the words that are read.
#[derive(Drop)]
struct LongRing {
    reads: u64,
}

impl Frames for LongRing {
    ghost image = { λ r. None };

    ghost files = { λ r. None };

    ghost faults = { λ r. 0 };

    ghost through = { λ r. [] };

    fn word<L: Ledger>(&mut self, pa: u64, steps: &mut Steps<L>) -> Result<PWord, FrameStop> {
        steps.tick();
        self.reads = self.reads.saturating_add(1);
        match entry(pa).or_else(|| linked(pa)) {
            Some(value) => Ok(PWord {
                value,
                off: Origin::File(pa),
            }),
            None => Err(FrameStop::Absent),
        }
    }
}

// A page of the size that an entry's level has, or a table, which is there and may be written.
const PAGE: u64 = 0x83;

const TABLE: u64 = 0x03;

// The entries that map the first GiB of memory, in the kernel's image and in the direct map: two of the top table, each with one
// below it.
fn entry(pa: u64) -> Option<u64> {
    match pa {
        0x1ff8 => Some(0x2000 | TABLE),
        0x1888 => Some(0x3000 | TABLE),
        0x2ff0 | 0x3000 => Some(PAGE),
        _ => None,
    }
}

// What a word of the ring holds: the address of the node after it, or before it.
fn linked(pa: u64) -> Option<u64> {
    if pa == HEAD - IMAGE {
        return Some(FIRST);
    }
    if pa == HEAD - IMAGE + 8 {
        return Some(node(NODES - 1));
    }
    let at = pa.checked_sub(FIRST - DIRECT)?;
    let number = at / 16;
    match at % 16 {
        0 if number < NODES => Some(node(number + 1)),
        8 if number == 0 => Some(HEAD),
        8 if number < NODES => Some(node(number - 1)),
        _ => None,
    }
}

// The address of a node by its number, and the head's after the last.
fn node(number: u64) -> u64 {
    if number < NODES {
        FIRST.saturating_add(number.saturating_mul(16))
    } else {
        HEAD
    }
}

// A certificate of so many steps, each of so many nodes of the long ring.
fn ring_cert(alloc: Global, steps: u64, nodes: u64) -> Result<Certificate, NoMemory> {
    let mut cert = Certificate::new(alloc);
    for _ in 0..steps {
        let mut lists = Lists::new(alloc);
        lists.push(ring_list(alloc, nodes)?)?;
        cert.push(CertStep {
            audit: 0,
            start: HEAD,
            lists,
        })?;
    }
    Ok(cert)
}

fn ring_list(alloc: Global, nodes: u64) -> Result<Walked, NoMemory> {
    let mut list = Walked::new(alloc);
    for number in 0..nodes {
        list.push(node(number))?;
    }
    Ok(list)
}

const PAGING: PageCfg = PageCfg {
    table: 0x1000,
    five: false,
    sme: 0,
};

// How many steps a certificate has, and how many nodes each; the answer, and how many words were read, entries of page tables
// among them.
const PAID: [(u64, u64, &str); 4] = [
    (0, 0, "no 1, 0 reads"),
    (1, 0, "no 1, 3 reads"),
    (1, 2, "no 1, 4 reads"),
    (1, NODES, "yes 1 100000, 200786 reads"),
];

#[test]
fn reads_are_paid_by_the_certificate(rt: HostRuntime) -> Result<(), Fail> {
    let alloc = rt.alloc();
    let btf = Btf::read(alloc, btf_file(alloc)?)?;
    let Some(plan) = plan_of(alloc, RING_PLAN, &btf) else {
        assert!(rt; false, "refused");
        return Ok(());
    };
    for (steps, nodes, wanted) in PAID {
        let cert = ring_cert(alloc, steps, nodes)?;
        let mut memory = Memory::new(alloc, LongRing { reads: 0 }, PAGING, 1)?;
        let found = answer::<Memory<LongRing>, Brand>(
            alloc,
            &plan,
            &btf,
            &mut memory,
            &cert,
            Blank::new(1),
        )?;
        let reads = memory.into_frames().reads;
        let told = format!(in alloc; "{found}, {reads} reads")?;
        assert_eq!(rt; told.as_str(), wanted);
    }
    Ok(())
}
