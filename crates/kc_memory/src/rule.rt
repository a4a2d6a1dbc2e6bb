// The rules that a dump can break.

/// A rule that a dump breaks. M1 to M6 stop the reading of a virtual address (Intel SDM volume 3A, chapter
/// "Paging"). The others are about what the words hold: any pointers and words (N, K, A), lists and hash
/// chains (L1, H1), red-black trees (R), xarrays (X), slab caches (U), tasks (T), process ids (G), and checks (C).
#[derive(Clone, Copy, Debug, PartialEq, Eq)]
pub enum Rule {
    /// The address isn't a multiple of 8.
    M1,
    /// The address isn't canonical: the bits above those that the tables translate aren't all equal to
    /// the highest of these.
    M2,
    /// A paging entry isn't in the dump.
    M3,
    /// A paging entry isn't present: its bit 0 is 0.
    M4,
    /// A paging entry has a reserved bit set.
    M5,
    /// The word at the translated address isn't in the dump.
    M6,
    /// A pointer that has to lead on is null.
    N,
    /// A list's pointer is one of the two values that the kernel puts into a deleted node.
    K,
    /// A word was met before in the same walk.
    A,
    /// The `prev` of a list's node isn't the node before it.
    L1,
    /// The `pprev` of a hash chain's node isn't the address of the word that points to it.
    H1,
    /// The parent that a red-black tree's node names isn't its parent.
    R1,
    /// The root of a red-black tree is red.
    R2,
    /// A red node of a red-black tree has a red parent.
    R3,
    /// A key of a red-black tree isn't between the keys that bound it.
    R4,
    /// A way to a null child passes another number of black nodes than the way to the first one.
    R5,
    /// The cached leftmost node of a red-black tree isn't its first one.
    R6,
    /// The shift of an xarray's node doesn't fit its level.
    X1,
    /// The offset of an xarray's node isn't the number of its slot.
    X2,
    /// The parent of an xarray's node isn't the node above it.
    X3,
    /// An xarray's node names another xarray.
    X4,
    /// The count of an xarray's node isn't the number of its slots in use.
    X5,
    /// The number of values that an xarray's node tells isn't that of its slots that hold values.
    X6,
    /// An entry of an xarray can't stand in its slot.
    X7,
    /// A sibling entry of an xarray doesn't name an entry that can have siblings.
    X8,
    /// An entry of an xarray's lowest node leads to a node.
    X9,
    /// A slab belongs to another cache.
    U1,
    /// A slab on a list of partial slabs is frozen.
    U2,
    /// The size or the numbers of objects of a cache or slab can't be.
    U3,
    /// A slab isn't the descriptor of a page.
    U4,
    /// A pointer of a free list doesn't lead to an object of the slab.
    U5,
    /// A free list has another length than the number of free objects of the slab.
    U6,
    /// A list of partial slabs has another length than the number that its node tells.
    U7,
    /// The `group_leader` of a task isn't the leader of its thread group.
    T1,
    /// The `pid` of a thread group's leader isn't its `tgid`.
    T2,
    /// A thread has another `signal` than the leader of its thread group.
    T3,
    /// A thread has another `tgid` than the leader of its thread group.
    T4,
    /// The `real_parent` of a child isn't the task that has it among its children.
    T5,
    /// The word at the end of a task's stack isn't the magic number there.
    T6,
    /// The leader of a thread group isn't among its threads.
    T7,
    /// The number of a process id isn't the index at which the table has it.
    G1,
    /// A task on the chain of a process id names another one.
    G2,
    /// A check of the plan gives 0.
    C,
}
