// Where the fields of tasks stand.
ghost use Rattle.std.specs.Prelude.{◌≡◌, ◌≤◌, length, IfSome};
ghost use Rattle.kc_kinds.specs.Inside.{AreTasksInside};
ghost use Rattle.kc_kinds.specs.Rows.{IsRow};
ghost use Rattle.kc_kinds.specs.Tasks.{AreNumbersInside, task_numbers, task_rings, task_row, task_words};

use crate::known::Known;
use crate::members::{inner_in, scalar_in, struct_named};
use crate::ring::list_words;
use crate::row::Row;
use kc_btf::Btf;
use kc_layout::Field;
use kc_view::TaskShape;

// What tasks need.
pub(crate) fn task_row(known: &Known<'_>) -> Row
    ensures exact { result ≡ task_row known.now.btf.now }
    ensures there { IsRow (length known.now.btf.now.records) result }
{
    let task = struct_named(known, b"task_struct");
    Row {
        head: task,
        node: struct_named(known, b"list_head"),
        element: task,
        named: true,
        clear: true,
    }
}

// The numbers of a task.
#[derive(Clone, Copy)]
pub(crate) struct TaskNumbers {
    pub pid: Field,
    pub tgid: Field,
    pub real_parent: Field,
    pub group_leader: Field,
    pub signal: Field,
    pub stack: Field,
}

// The numbers of a task.
#[tactic(auto, unfolding(crate::specs::Tasks::task_numbers))]
fn task_numbers(btf: &Btf, task: Option<u32>) -> Option<TaskNumbers>
    requires { IfSome task (λ id. id ≤ length btf.now.records) }
    ensures exact { result ≡ task_numbers btf.now task }
    ensures there { IfSome result (AreNumbersInside (length btf.now.records)) }
{
    let pid = scalar_in(btf, task, b"pid")?;
    let tgid = scalar_in(btf, task, b"tgid")?;
    let real_parent = scalar_in(btf, task, b"real_parent")?;
    let group_leader = scalar_in(btf, task, b"group_leader")?;
    let signal = scalar_in(btf, task, b"signal")?;
    let stack = scalar_in(btf, task, b"stack")?;
    Some(TaskNumbers {
        pid,
        tgid,
        real_parent,
        group_leader,
        signal,
        stack,
    })
}

// The offsets of a task's nodes and heads of rings, and of the head that its thread group shares.
#[derive(Clone, Copy)]
pub(crate) struct TaskRings {
    pub tasks: u64,
    pub children: u64,
    pub sibling: u64,
    pub thread_node: u64,
    pub thread_head: u64,
}

// The nodes and heads of a task's rings.
#[tactic(auto, unfolding(crate::specs::Tasks::task_rings))]
fn task_rings(
    btf: &Btf,
    list: Option<u32>,
    task: Option<u32>,
    signal: Option<u32>,
) -> Option<TaskRings>
    requires task { IfSome task (λ id. id ≤ length btf.now.records) }
    requires signal { IfSome signal (λ id. id ≤ length btf.now.records) }
    ensures { result ≡ task_rings btf.now list task signal }
{
    let tasks = inner_in(btf, list, task, b"tasks")?;
    let children = inner_in(btf, list, task, b"children")?;
    let sibling = inner_in(btf, list, task, b"sibling")?;
    let thread_node = inner_in(btf, list, task, b"thread_node")?;
    let thread_head = inner_in(btf, list, signal, b"thread_head")?;
    Some(TaskRings {
        tasks,
        children,
        sibling,
        thread_node,
        thread_head,
    })
}

// Where the fields of tasks stand, where the kernel has them.
#[tactic(auto, unfolding(crate::specs::Tasks::task_words))]
pub(crate) fn task_words(known: &Known<'_>, needs: &Row) -> Option<TaskShape>
    requires { IsRow (length known.now.btf.now.records) needs.now }
    ensures exact { result ≡ task_words known.now.btf.now needs.now }
    ensures there { IfSome result (AreTasksInside (length known.now.btf.now.records)) }
{
    let task = needs.head?;
    let list = list_words(known.btf, needs.node)?;
    let numbers = task_numbers(known.btf, needs.head)?;
    let signal = struct_named(known, b"signal_struct");
    let rings = task_rings(known.btf, needs.node, needs.head, signal)?;
    Some(TaskShape {
        task,
        list,
        tasks: rings.tasks,
        pid: numbers.pid,
        tgid: numbers.tgid,
        real_parent: numbers.real_parent,
        children: rings.children,
        sibling: rings.sibling,
        group_leader: numbers.group_leader,
        signal: numbers.signal,
        thread_head: rings.thread_head,
        thread_node: rings.thread_node,
        stack: numbers.stack,
    })
}
