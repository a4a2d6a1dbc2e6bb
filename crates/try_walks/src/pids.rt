// Tables of process ids. A case gives what the number of a process id is, and the words that are changed.
use crate::types::{field, no_types};
use crate::walk::Walks;
use anyhow::Result;
use kc_cases::{Case, answer_text};
use kc_found::{HShape, XaShape};
use kc_layout::Field;
use kc_pid::pids_walk;
use kc_view::PidShape;
use kc_word::Steps;
use std::alloc::Global;
use std::sync::ledger::Ledger;

/// Tables of process ids, whose structs have few fields.
pub struct Pids;

impl Walks for Pids {
    fn answer<L: Ledger>(
        &self,
        alloc: Global,
        case: &Case<'_>,
        steps: &mut Steps<L>,
    ) -> Result<String> {
        let Case { file, given } = case;
        let btf = no_types(alloc)?;
        let idr = file.number("idr")?;
        let (number, changed) = given.split_once(' ').unwrap_or((given, ""));
        // Numbers of 64 bits stand in an xarray whose nodes have 64 slots.
        let wide = number == "long";
        let words = file.section(if wide { "wide" } else { "words" })?;
        let mut space = file.memory(alloc, changed, words)?;
        let shape = shape(number_field(number), wide);
        let walk = pids_walk(alloc, &mut space, &btf, &shape, idr, 7, steps);
        Ok(answer_text(alloc, walk, idr)?)
    }
}

// The number of a process id: an `int` or a `long`, or four bits with a sign or without.
fn number_field(number: &str) -> Field {
    match number {
        "long" => field(8 * 0x10, 64, true),
        "nibble" => field(8 * 0x10 + 4, 4, false),
        "signed" => field(8 * 0x10 + 4, 4, true),
        _ => field(8 * 0x10, 32, true),
    }
}

fn shape(nr: Field, wide: bool) -> PidShape {
    PidShape {
        xa: XaShape {
            head: 8,
            shift: 0,
            offset: 1,
            count: 2,
            nr_values: 3,
            parent: 8,
            array: 16,
            slots: 24,
            chunk: if wide { 64 } else { 16 },
            idr: true,
        },
        idr_rt: 8,
        nr,
        tasks: 8,
        chain: HShape {
            first: 0,
            next: 0,
            pprev: 8,
        },
        links: 0x30,
        thread_pid: field(8 * 0x40, 64, false),
    }
}
