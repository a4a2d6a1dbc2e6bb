// Where the fields of tasks stand, and what is read of a thread group. All offsets are in bytes, and addresses wrap at 2^64.
use kc_found::ListShape;
use kc_layout::Field;

/// A task (`struct task_struct`) and what its thread group shares (`struct signal_struct`), by the type's number and the
/// fields.
#[derive(Clone, Copy, Debug, PartialEq, Eq)]
pub struct TaskShape {
    /// The number of the type `task_struct`.
    pub task: u32,
    /// The nodes of rings.
    pub list: ListShape,
    /// The offset of `tasks` from a task's address: the node in the ring of thread groups' leaders.
    pub tasks: u64,
    /// The field `pid` of a task: its own number.
    pub pid: Field,
    /// The field `tgid` of a task: the number of its thread group.
    pub tgid: Field,
    /// The field `real_parent` of a task: the address of its parent.
    pub real_parent: Field,
    /// The offset of `children` from a task's address: the head of the ring of its children.
    pub children: u64,
    /// The offset of `sibling` from a task's address: the node in the ring of its parent's children.
    pub sibling: u64,
    /// The field `group_leader` of a task: the address of its thread group's leader.
    pub group_leader: Field,
    /// The field `signal` of a task: the address of what its thread group shares.
    pub signal: Field,
    /// The offset of `thread_head` from that address: the head of the ring of the group's threads.
    pub thread_head: u64,
    /// The offset of `thread_node` from a task's address: the node in the ring of its group's threads.
    pub thread_node: u64,
    /// The field `stack` of a task: the address of the lowest word of its kernel stack, or 0.
    pub stack: Field,
}

/// What the threads of a group have in common, as read of its leader.
#[derive(Clone, Copy, Debug, PartialEq, Eq)]
pub struct ThreadGroup {
    /// The virtual address of the leader's task.
    pub leader: u64,
    /// The virtual address of what they share (`struct signal_struct`).
    pub signal: u64,
    /// The number of the group (`tgid`), in 64 bits.
    pub tgid: u64,
}
