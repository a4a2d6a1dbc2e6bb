// Which nodes lists give.
ghost use Rattle.std.specs.Prelude.{◌≡◌, ◌++◌, drop, map, IfOk, OnOk};
ghost use Rattle.kc_view.specs.TaskLists.{task_of};
ghost use Rattle.kc_by_lists.specs.Apart as apart;

use kc_found::{Items, Walked};
use kc_view::{SlubShape, TaskShape};
use kc_word::NoMemory;
use std::alloc::Global;

// Adds what the nodes of a ring stand in, each at an offset.
fn append(found: &mut Walked, nodes: &Walked, offset: u64) -> Result<(), NoMemory>
    ensures { OnOk result (found.new ≡ found.old ++ map (task_of offset) nodes.now) }
{
    for node in nodes.as_slice() {
        found.push(node.wrapping_sub(offset))?;
    }
    Ok(())
}

// What the nodes of rings stand in, from a list on, each at an offset.
fn nodes_apart(
    alloc: Global,
    offset: u64,
    lists: &Items<Walked>,
    from: usize,
) -> Result<Walked, NoMemory>
    ensures { IfOk result (λ found. found ≡ apart.nodes_apart (task_of offset) 0 (drop from lists.now)) }
{
    let mut found = Walked::new(alloc);
    let mut over = 0;
    for i in from..lists.len() {
        if over > 0 {
            over -= 1;
            continue;
        }
        let nodes = lists.get(i);
        append(&mut found, nodes, offset)?;
        over = nodes.len();
    }
    Ok(found)
}

/// The slabs that the lists of a slab cache give, in the order of its walk.
///
/// # Errors
///
/// Out of memory.
pub fn cache_nodes(
    alloc: Global,
    shape: &SlubShape,
    lists: &Items<Walked>,
) -> Result<Walked, NoMemory>
    ensures { IfOk result (λ slabs. slabs ≡ apart.cache_nodes shape.now lists.now) }
{
    nodes_apart(alloc, shape.slab_list, lists, 0)
}

/// The threads that the lists of tasks give, in the order of their walk.
///
/// # Errors
///
/// Out of memory.
pub fn task_nodes(
    alloc: Global,
    shape: &TaskShape,
    lists: &Items<Walked>,
) -> Result<Walked, NoMemory>
    ensures { IfOk result (λ threads. threads ≡ apart.task_nodes shape.now lists.now) }
{
    nodes_apart(alloc, shape.thread_node, lists, 1)
}
