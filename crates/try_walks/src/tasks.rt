// Task lists. A case gives the words of the tasks that are changed.
ghost use Rattle.std.specs.Prelude.{◌≡◌};

use crate::types::{field, no_types};
use crate::walk::Walks;
use anyhow::Result;
use kc_cases::{Case, answer_text};
use kc_found::ListShape;
use kc_task::tasks_walk;
use kc_view::TaskShape;
use kc_word::Steps;
use std::alloc::Global;
use std::sync::ledger::Ledger;

/// Task lists, whose tasks have few fields.
pub struct Tasks;

impl Walks for Tasks {
    fn answer<L: Ledger>(
        &self,
        alloc: Global,
        case: &Case<'_>,
        steps: &mut Steps<L>,
    ) -> Result<String> {
        let Case { file, given } = case;
        let btf = no_types(alloc)?;
        let init = file.number("init")?;
        let mut space = file.memory(alloc, given, file.section("words")?)?;
        let walk = tasks_walk(alloc, &mut space, &btf, &shape(), init, 7, steps);
        Ok(answer_text(alloc, walk, init)?)
    }
}

// The offsets of the fields. It names no type.
fn shape() -> TaskShape
    ensures { result.task ≡ 0 }
{
    TaskShape {
        task: 0,
        list: ListShape { next: 0, prev: 8 },
        tasks: 8,
        pid: field(8 * 0x18, 32, true),
        tgid: field(8 * 0x1c, 32, true),
        real_parent: field(8 * 0x20, 64, false),
        children: 0x28,
        sibling: 0x38,
        group_leader: field(8 * 0x48, 64, false),
        signal: field(8 * 0x50, 64, false),
        thread_head: 0,
        thread_node: 0x58,
        stack: field(0, 64, false),
    }
}
