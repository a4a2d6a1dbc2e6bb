// The nodes of a list of the kernel.
ghost use Rattle.std.specs.Prelude.{◌^◌};
ghost use Rattle.kc_memory.specs.Stays.{SpaceStays};
ghost use Rattle.kc_kallsyms.specs.Bytes.{eight_at};
ghost use Rattle.kc_kallsyms.specs.Reading.{CountsReadFaults, ReadsAs};
ghost use Rattle.kc_modules.specs.Lists.{nodes_at, nodes_from};

use kc_bytes::read_eight;
use kc_kallsyms::{TableFault, TableStop};
use kc_memory::Space;
use kc_word::Steps;
use std::alloc::Global;
use std::sync::ledger::Ledger;

// How many nodes a list doesn't have.
const NODES: u32 = 1 << 16;

// The address of the next node, or of another object.
pub(crate) fn read_address<S: Space, L: Ledger>(
    space: &mut S,
    at: u64,
    steps: &mut Steps<L>,
) -> Result<u64, TableStop>
    ensures address { ReadsAs (λ n. n) (λ image. eight_at image at) (S.image space.old) result }
    ensures stays { SpaceStays S.image S.files S.through S.most space.old space.new }
    ensures cause { CountsReadFaults result (S.faults space.old) (S.faults space.new) }
{
    Ok(read_eight(space, at, steps)?)
}

// The nodes from one on.
fn read_from<S: Space, L: Ledger>(
    alloc: Global,
    space: &mut S,
    head: u64,
    first: u64,
    steps: &mut Steps<L>,
) -> Result<Vec<u64>, TableStop>
    ensures nodes { ReadsAs (λ v. v.items) (λ image. nodes_from image head (2 ^ 16) first) (S.image space.old) result }
    ensures stays { SpaceStays S.image S.files S.through S.most space.old space.new }
    ensures cause { CountsReadFaults result (S.faults space.old) (S.faults space.new) }
{
    let mut nodes = Vec::new(alloc);
    let mut at = first;
    for i in 0..NODES {
        if at == head {
            return Ok(nodes);
        }
        let next = read_address(space, at, steps)?;
        nodes.push(at)?;
        at = next;
    }
    Err(TableStop::Table(TableFault::S15))
}

/// The addresses of a list's nodes, in their order, by the address of its head.
///
/// # Errors
///
/// A word that can't be read; S15; no memory was left.
#[tactic(auto, unfolding(crate::specs::Lists::nodes_at))]
pub fn read_nodes<S: Space, L: Ledger>(
    alloc: Global,
    space: &mut S,
    head: u64,
    steps: &mut Steps<L>,
) -> Result<Vec<u64>, TableStop>
    ensures nodes { ReadsAs (λ v. v.items) (λ image. nodes_at image head) (S.image space.old) result }
    ensures stays { SpaceStays S.image S.files S.through S.most space.old space.new }
    ensures cause { CountsReadFaults result (S.faults space.old) (S.faults space.new) }
{
    let first = read_address(space, head, steps)?;
    read_from(alloc, space, head, first, steps)
}
