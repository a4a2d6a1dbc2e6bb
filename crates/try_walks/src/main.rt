//! Tries the cases of walks that stand in `data/`, a file each subject: the words of a memory, and what is found in it.
#![tactic(auto)]

mod audits;
mod frames;
mod lists;
mod loops;
mod numbers;
mod pages;
mod pids;
mod roots;
mod slabs;
mod tasks;
mod trees;
mod types;
mod views;
mod walk;
mod words;
mod xarrays;

use anyhow::Result;
use audits::Audits;
use kc_cases::try_file;
use lists::{HashChains, Rings};
use loops::Loops;
use numbers::Numbers;
use pages::PagesCase;
use pids::Pids;
use roots::RootAudits;
use slabs::{FreeLists, SlabCachesCase};
use tasks::Tasks;
use trees::Trees;
use views::Views;
use walk::Walk;
use words::WordsCase;
use xarrays::Xarrays;

fn main(rt: HostRuntime) -> Result<()> {
    try_file(&rt, "rings", &Walk(Rings))?;
    try_file(&rt, "hash_chains", &Walk(HashChains))?;
    try_file(&rt, "trees", &Walk(Trees))?;
    try_file(&rt, "xarrays", &Walk(Xarrays))?;
    try_file(&rt, "slab_caches", &Walk(SlabCachesCase))?;
    try_file(&rt, "free_lists", &Walk(FreeLists))?;
    try_file(&rt, "tasks", &Walk(Tasks))?;
    try_file(&rt, "pids", &Walk(Pids))?;
    try_file(&rt, "audits", &Walk(Audits))?;
    try_file(&rt, "root_audits", &Walk(RootAudits))?;
    try_file(&rt, "numbers", &Walk(Numbers))?;
    try_file(&rt, "views", &Walk(Views))?;
    try_file(&rt, "pages", &Walk(PagesCase))?;
    try_file(&rt, "words", &Walk(WordsCase))?;
    try_file(&rt, "loops", &Walk(Loops))
}
