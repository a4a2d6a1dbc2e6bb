//! Tries kaudit, kmatch, kwhy and kfiles on the cases of data/, over a store and sinks in memory that write down each call, and prints how many
//! cases each file has. A case that ends otherwise than its file says is printed with what came in its place.
//!
//! A case is a paragraph; one that begins with `#` is a comment. Its lines give the words, what is changed of the usual files, and how the
//! program is to end. Numbers are in hex.
//!
//! - `words` gives several words, and `word` one that is empty or has spaces.
//! - `without` a name, that file isn't there; `fails` is the number of the call that fails; `out_limit` and `err_limit` are how many
//!   bytes a sink takes.
//! - `put` is a word of the dump at a physical address, `bytes` and `types` are bytes of the dump and of the types at a file offset;
//!   `length` and `types_length` say where they are cut, and `grown` how long the dump is. `selves` are words that name themselves.
//! - `note`, `stated` and `last` are lines of the kernel's note, `map` and `row` of the map, `type` of the types, `plan` of the plan, and
//!   `planned` is a plan by its name. `types_size`, `map_size`, `plan_size` and `plan_spaces` are lengths of files of zeros or spaces.
//! - `module` are numbers of a module's types, in decimal or behind `0x`, and `names` names behind them; `module_bytes`, `module_length` and
//!   `module_size` are as those of the types.
//! - `cert` are lines of a certificate, `cert_end` is text after them that no newline ends, and `cert_size` is the length of a file of zeros.
//! - `pids` is the usual kernel with process ids: its types, its map, and a table with one.
//! - `made` are the files of so many made items, and `spine` makes a spine of their tree.
//! - `status`, `out`, `err` and `usage` are what is wanted, and `call` is a call of the store, and then of the sinks, in its order.
#![tactic(auto)]

mod case;
mod files;
mod noting;
mod pids;
mod running;
mod spine;
mod texts;
mod trying;

use crate::running::Program;
use crate::texts::Texts;
use crate::trying::{try_calls, try_each, try_lengths};
use std::io;

// The files of cases of kaudit.
const KAUDIT: [&str; 29] = [
    "pages",
    "segments",
    "stops",
    "reserved",
    "refusals",
    "unopened",
    "cuts",
    "commands",
    "selftests",
    "failures",
    "layouts",
    "numbers",
    "questions",
    "chains",
    "trees",
    "spines",
    "xarrays",
    "nested",
    "ways",
    "slabs",
    "tasks",
    "pids",
    "checks",
    "plans",
    "modules",
    "failing",
    "loops",
    "certificates",
    "certified",
];

// Those of kmatch.
const KMATCH: [&str; 3] = ["facts", "own_types", "endings"];

// Those of kwhy.
const KWHY: [&str; 3] = ["sights", "written", "why_endings"];

// Those of kfiles.
const KFILES: [&str; 3] = ["tables", "logs", "notes"];

fn main(rt: HostRuntime) -> io::Result<()> {
    let texts = Texts::read(&rt)?;
    for name in KAUDIT {
        try_each(&rt, &texts, name, Program::Kaudit)?;
    }
    for name in KMATCH {
        try_each(&rt, &texts, name, Program::Kmatch)?;
    }
    try_each(&rt, &texts, "sizes", Program::Kaudit)?;
    try_each(&rt, &texts, "far_rings", Program::Kaudit)?;
    try_each(&rt, &texts, "calls", Program::Kaudit)?;
    try_each(&rt, &texts, "match_calls", Program::Kmatch)?;
    for name in KWHY {
        try_each(&rt, &texts, name, Program::Kwhy)?;
    }
    try_each(&rt, &texts, "why_calls", Program::Kwhy)?;
    for name in KFILES {
        try_each(&rt, &texts, name, Program::Kfiles)?;
    }
    for name in ["whole", "kin", "five"] {
        try_calls(&rt, &texts, name, Program::Kaudit)?;
        try_lengths(&rt, &texts, name, Program::Kaudit)?;
    }
    for name in ["seen", "found"] {
        try_calls(&rt, &texts, name, Program::Kwhy)?;
        try_lengths(&rt, &texts, name, Program::Kwhy)?;
    }
    Ok(())
}
