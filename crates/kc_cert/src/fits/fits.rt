// Whether a step fits.
ghost use Rattle.std.specs.Prelude.{◌≡◌, ◌+◌, ◌*◌, ◌≤◌, length};
ghost use Rattle.kc_memory.specs.Stays.{SpaceStays};
ghost use Rattle.kc_kinds.specs.Inside.{KindInside};
ghost use Rattle.kc_plan.specs.Planned.{audit_seen};
ghost use Rattle.kc_found.specs.Tests.{CountsTestFaults, TellsAs};
ghost use Rattle.kc_cert.specs.Fits.Fits.{all_hold, checks_hold, fits};
ghost use Rattle.kc_cert.specs.Fits.Size.{lists_size};
ghost use Rattle.kc_cert.specs.Fits.Shapes.{nodes_in};

use crate::CertStep;
use crate::shapes::test_shape;
use kc_btf::Btf;
use kc_found::{Asked, Space, TestStop, WalkStop, Walked};
use kc_plan::Audit;
use kc_run::{container_of, look_checks};
use kc_word::Steps;
use std::alloc::Global;
use std::sync::ledger::Ledger;

// Tests whether the checks of an element hold: at most 32, each with at most eight fields, of 60 steps each.
fn test_checks<S: Space, L: Ledger>(
    alloc: Global,
    btf: &Btf,
    space: &mut S,
    audit: &Audit,
    asked: &Asked,
    element: u64,
    steps: &mut Steps<L>,
) -> Result<(), TestStop>
    ensures test { TellsAs (λ i. checks_hold i asked.now.audit (audit_seen audit.now) asked.now.start element) (S.image space.old) result }
    ensures steps { steps.new ≤ steps.old + 15360 }

    ensures stays { SpaceStays S.image S.files S.through S.most space.old space.new }
    ensures cause { CountsTestFaults result (S.faults space.old) (S.faults space.new) }
{
    match look_checks(alloc, btf, space, asked, &audit.checks, element, steps) {
        Ok(()) => Ok(()),
        Err(WalkStop::Broken(_)) => Err(TestStop::Unfit),
        Err(WalkStop::Fault) => Err(TestStop::Fault),
        Err(WalkStop::NoMemory) => Err(TestStop::NoMemory),
    }
}

// Tests whether the checks of the elements of these nodes hold.
fn test_elements<S: Space, L: Ledger>(
    alloc: Global,
    btf: &Btf,
    space: &mut S,
    audit: &Audit,
    asked: &Asked,
    nodes: &Walked,
    steps: &mut Steps<L>,
) -> Result<(), TestStop>
    ensures test { TellsAs (λ i. all_hold i asked.now.audit (audit_seen audit.now) asked.now.start nodes.now) (S.image space.old) result }
    ensures steps { steps.new ≤ steps.old + 15360 * length nodes.now }

    ensures stays { SpaceStays S.image S.files S.through S.most space.old space.new }
    ensures cause { CountsTestFaults result (S.faults space.old) (S.faults space.new) }
{
    for i in 0..nodes.len() {
        let element = container_of(audit.link, *nodes.get(i));
        test_checks(alloc, btf, space, audit, asked, element, steps)?;
    }
    Ok(())
}

/// Tests whether a step, whose shape has these nodes, fits where an audit is walked from a start: it is of that audit and that start, its
/// lists are the shape there, and the checks of all its elements hold.
///
/// # Errors
///
/// `Unfit` exactly where it doesn't, a failure of the space, or out of memory.
#[tactic(auto, unfolding(crate::specs::Fits::Fits::fits))]
pub fn test_step<S: Space, L: Ledger>(
    alloc: Global,
    btf: &Btf,
    space: &mut S,
    audit: &Audit,
    asked: &Asked,
    step: &CertStep,
    nodes: &Walked,
    steps: &mut Steps<L>,
) -> Result<(), TestStop>
    requires nodes { nodes.now ≡ nodes_in audit.now.kind step.now.lists }
    requires kind { KindInside (length btf.now.records) audit.now.kind }

    ensures test { TellsAs (λ i. fits i asked.now.audit (audit_seen audit.now) asked.now.start step.now) (S.image space.old) result }
    ensures steps { steps.new ≤ steps.old + 800000 + 1000 * lists_size step.now.lists + 15360 * length nodes.now }

    ensures stays { SpaceStays S.image S.files S.through S.most space.old space.new }
    ensures cause { CountsTestFaults result (S.faults space.old) (S.faults space.new) }
{
    if step.audit != asked.audit || step.start != asked.start {
        return Err(TestStop::Unfit);
    }
    test_shape(alloc, space, btf, &audit.kind, asked, &step.lists, steps)?;
    test_elements(alloc, btf, space, audit, asked, nodes, steps)
}
