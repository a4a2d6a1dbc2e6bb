//! Tries the cases of the readers of files and of texts that stand in `data/`, a file each subject: what is read, or why not. The head of a
//! file says what its cases give, of plans the heads of `plans.rt` and `pid_plans.rt`. In a text that a case gives, a `\` begins a byte that is written otherwise,
//! and at the end of a line it says that the line isn't ended.
#![tactic(auto)]

mod bytes;
mod checks;
mod cores;
mod layouts;
mod pid_plans;
mod plan_text;
mod plans;
mod reports;
mod symbols;
mod types;

use anyhow::Result;
use kc_cases::{Case, Subject, try_file};
use std::alloc::Global;

// What the cases of a file ask.
#[derive(Clone, Copy)]
enum Reader {
    Cores,
    Notes,
    NoteValues,
    Types,
    Layouts,
    Symbols,
    Checks,
    Plans,
    PidPlans,
    Reports,
    ReportCuts,
}

impl Subject for Reader {
    fn answer(&self, alloc: Global, case: &Case<'_>) -> Result<String> {
        match self {
            Reader::Cores => cores::core_answer(alloc, case),
            Reader::Notes => cores::note_answer(alloc, case),
            Reader::NoteValues => cores::note_values_answer(alloc, case),
            Reader::Types => types::type_file_answer(alloc, case),
            Reader::Layouts => layouts::layout_answer(alloc, case),
            Reader::Symbols => symbols::map_answer(alloc, case),
            Reader::Checks => checks::check_answer(alloc, case),
            Reader::Plans => plans::plan_answer(alloc, case),
            Reader::PidPlans => pid_plans::pid_plan_answer(alloc, case),
            Reader::Reports => reports::report_answer(alloc, case),
            Reader::ReportCuts => reports::report_cuts_answer(alloc, case),
        }
    }
}

// The files of cases.
const FILES: [(&str, Reader); 16] = [
    ("cores", Reader::Cores),
    ("notes", Reader::Notes),
    ("note_values", Reader::NoteValues),
    ("types", Reader::Types),
    ("layouts", Reader::Layouts),
    ("symbols", Reader::Symbols),
    ("checks", Reader::Checks),
    ("plan_faults", Reader::Plans),
    ("plan_keys", Reader::Plans),
    ("plan_places", Reader::Plans),
    ("plans", Reader::Plans),
    ("plan_slabs", Reader::Plans),
    ("plan_checks", Reader::Plans),
    ("plan_pids", Reader::PidPlans),
    ("reports", Reader::Reports),
    ("report_cuts", Reader::ReportCuts),
];

fn main(rt: HostRuntime) -> Result<()> {
    for (name, reader) in FILES {
        try_file(&rt, name, &reader)?;
    }
    Ok(())
}
