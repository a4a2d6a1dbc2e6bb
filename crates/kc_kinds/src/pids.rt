// Where the fields of the table of process ids stand.
ghost use Rattle.std.specs.Prelude.{◌≡◌, ◌≤◌, length, IfSome};
ghost use Rattle.kc_kinds.specs.Inside.{ArePidsInside};
ghost use Rattle.kc_kinds.specs.Pids.{moved, pid_fields, pid_row, pid_words, task_fields};
ghost use Rattle.kc_kinds.specs.Rows.{IsRow};

use crate::hlist::hlist_words;
use crate::known::Known;
use crate::members::{array_in, inner_in, scalar_in, struct_named, wide_in};
use crate::row::Row;
use crate::xarray::xarray_words;
use kc_btf::Btf;
use kc_layout::Field;
use kc_view::PidShape;
use kc_word::Bits;

// The first bit of a struct that no field stands at.
const FAR: u64 = 1 << 36;

// What the table of process ids needs.
pub(crate) fn pid_row(known: &Known<'_>) -> Row
    ensures exact { result ≡ pid_row known.now.btf.now }
    ensures there { IsRow (length known.now.btf.now.records) result }
{
    Row {
        head: struct_named(known, b"idr"),
        node: struct_named(known, b"xa_node"),
        element: struct_named(known, b"pid"),
        named: known.names.find(known.btf, b"idr").is_some(),
        clear: true,
    }
}

// A field so many bytes on, where it stands before bit 2^36.
#[tactic(auto, using(crate::proofs::BitsLemmas::bits_beyond))]
fn moved(field: Field, byte: u64) -> Option<Field>
    ensures exact { result ≡ moved field byte }
    ensures there { IfSome result (λ f. f.ty ≡ field.ty) }
{
    if byte >= FAR / 8 {
        return None;
    }
    let bit = field.bits.bit + 8 * byte;
    if bit >= FAR {
        return None;
    }
    let Bits { width, signed, .. } = field.bits;
    Some(Field {
        hops: field.hops,
        bits: Bits { bit, width, signed },
        ty: field.ty,
    })
}

// The fields of a process id.
#[derive(Clone, Copy)]
pub(crate) struct PidFields {
    // Its number in the first namespace.
    pub nr: Field,
    // The offset of the first of its heads of tasks.
    pub tasks: u64,
}

// The fields of a process id.
#[tactic(auto, unfolding(crate::specs::Pids::pid_fields))]
fn pid_fields(
    btf: &Btf,
    head: Option<u32>,
    upid: Option<u32>,
    pid: Option<u32>,
) -> Option<PidFields>
    requires upid { IfSome upid (λ id. id ≤ length btf.now.records) }
    requires pid { IfSome pid (λ id. id ≤ length btf.now.records) }
    ensures exact { result ≡ pid_fields btf.now head upid pid }
    ensures there { IfSome result (λ fields. fields.nr.ty ≤ length btf.now.records) }
{
    let tasks = array_in(btf, head, pid, b"tasks")?;
    let numbers = array_in(btf, upid, pid, b"numbers")?;
    let number = scalar_in(btf, upid, b"nr")?;
    let nr = moved(number, numbers)?;
    Some(PidFields { nr, tasks })
}

// What a task says of its process id.
#[derive(Clone, Copy)]
pub(crate) struct TaskFields {
    // The offset of the first of its nodes.
    pub links: u64,
    // The address of its process id.
    pub thread_pid: Field,
}

// What a task says of its process id.
#[tactic(auto, unfolding(crate::specs::Pids::task_fields))]
fn task_fields(btf: &Btf, node: Option<u32>, task: Option<u32>) -> Option<TaskFields>
    requires { IfSome task (λ id. id ≤ length btf.now.records) }
    ensures exact { result ≡ task_fields btf.now node task }
    ensures there { IfSome result (λ fields. fields.thread_pid.ty ≤ length btf.now.records) }
{
    let links = array_in(btf, node, task, b"pid_links")?;
    let thread_pid = wide_in(btf, task, b"thread_pid")?;
    Some(TaskFields { links, thread_pid })
}

// Where the fields of the table of process ids stand, where the kernel has them.
#[tactic(auto, unfolding(crate::specs::Pids::pid_words))]
pub(crate) fn pid_words(known: &Known<'_>, needs: &Row) -> Option<PidShape>
    requires { IsRow (length known.now.btf.now.records) needs.now }
    ensures exact { result ≡ pid_words known.now.btf.now needs.now }
    ensures there { IfSome result (ArePidsInside (length known.now.btf.now.records)) }
{
    let array = struct_named(known, b"xarray");
    let xa = xarray_words(known.btf, array, needs.node, true)?;
    let idr_rt = inner_in(known.btf, array, needs.head, b"idr_rt")?;
    let head = struct_named(known, b"hlist_head");
    let node = struct_named(known, b"hlist_node");
    let chain = hlist_words(known.btf, head, node)?;
    let upid = struct_named(known, b"upid");
    let pid = pid_fields(known.btf, head, upid, needs.element)?;
    let task = task_fields(known.btf, node, struct_named(known, b"task_struct"))?;
    Some(PidShape {
        xa,
        idr_rt,
        nr: pid.nr,
        tasks: pid.tasks,
        chain,
        links: task.links,
        thread_pid: task.thread_pid,
    })
}
