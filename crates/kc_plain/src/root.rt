// The page of the top page table.
ghost use Rattle.std.specs.Prelude.{◌≡◌, ◌≤◌, ◌<◌, ◌^◌, IfSome, option_and_then};
ghost use Rattle.std.specs.Option.{option_copied};
ghost use Rattle.kc_word.specs.Hex.{hex_number};
ghost use Rattle.kc_kdump.specs.Runs.{page_count};
ghost use Rattle.kc_plain.specs.Root.{IsPage, number_from, root_address, root_at, root_of};

use kc_kdump::PageRun;
use kc_notes::{kernel_info, value};
use kc_word::read_hex;

const PAGE_BYTES: u64 = 4096;

/// The page of the top page table, which stands in a plain core file under its virtual address once more.
#[derive(Clone, Copy)]
pub struct Root {
    /// Its virtual address.
    pub address: u64,
    /// Its physical address.
    pub physical: u64,
    /// Its number among the pages in the dump.
    pub number: u64,
}

// The number of a page frame's page among those in the dump.
fn number_of(runs: &[PageRun], frame: u64) -> Option<u64>
    requires { page_count runs.now ≤ 2 ^ 47 }
    ensures value { result ≡ number_from frame 0 runs.now }
    ensures small { IfSome result (λ n. n < page_count runs.now) }
{
    let mut before = 0;
    for run in runs {
        if run.first <= frame && frame - run.first < run.dumped {
            return Some(before + (frame - run.first));
        }
        before += run.dumped;
    }
    None
}

// The hex number of a value.
fn hex_of(text: Option<&[u8]>) -> Option<u64>
    ensures { result ≡ option_and_then hex_number (option_copied text.entry) }
{
    read_hex(text?)
}

// Its virtual address by the lines of the notes.
#[tactic(auto, unfolding(crate::specs::Root::root_address))]
fn root_address(notes: &[u8]) -> Option<u64>
    ensures { result ≡ root_address notes.now }
{
    hex_of(value(notes, b"SYMBOL(swapper_pg_dir)"))
}

// The page with this physical address.
fn root_at(runs: &[PageRun], physical: u64, address: u64) -> Option<Root>
    requires few { page_count runs.now ≤ 2 ^ 47 }
    requires below { physical < 2 ^ 52 }
    ensures value { result ≡ root_at runs.now physical address }
    ensures page { IfSome result (λ r. IsPage (page_count runs.now) r) }
{
    let number = number_of(runs, physical / PAGE_BYTES)?;
    Some(Root {
        address,
        physical,
        number,
    })
}

/// The page of the top page table, where the lines of the notes say which it is, and it is in the dump.
#[tactic(auto, unfolding(crate::specs::Root::root_of))]
pub(crate) fn root_of(runs: &[PageRun], notes: &[u8]) -> Option<Root>
    requires { page_count runs.now ≤ 2 ^ 47 }
    ensures value { result ≡ root_of runs.now notes.now }
    ensures page { IfSome result (λ r. IsPage (page_count runs.now) r) }
{
    match kernel_info(notes) {
        Ok(info) => root_at(runs, info.table, root_address(notes)?),
        Err(_) => None,
    }
}
