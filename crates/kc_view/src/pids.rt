// Where the fields of the table of process ids stand. All offsets are in bytes, and addresses wrap at 2^64.
use kc_found::{HShape, XaShape};
use kc_layout::Field;

/// The table of the process ids of the first pid namespace (`struct idr`), a process id (`struct pid`), and what its tasks
/// (`struct task_struct`) say of it, by the fields.
#[derive(Clone, Copy, Debug, PartialEq, Eq)]
pub struct PidShape {
    /// The xarray of the table. It is an IDR's, so slots that are reserved and still null may be counted.
    pub xa: XaShape,
    /// The offset of the xarray `idr_rt` from the table's address.
    pub idr_rt: u64,
    /// The field `nr` of the first of the `numbers` of a process id: its number in the first namespace.
    pub nr: Field,
    /// The offset from a process id's address of the first of its `tasks`: the head of the hash chain of tasks whose own
    /// number it is.
    pub tasks: u64,
    /// The nodes of hash chains.
    pub chain: HShape,
    /// The offset from a task's address of the first of its `pid_links`: the node on that chain.
    pub links: u64,
    /// The field `thread_pid` of a task: the address of its process id.
    pub thread_pid: Field,
}
