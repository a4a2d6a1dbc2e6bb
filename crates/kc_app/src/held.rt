// What the four files of an audit hold.
ghost use Rattle.std.specs.Prelude.{◌≡◌, ℕ, List, length, IfErr, IfOk, IfSome};
ghost use Rattle.kc_outside.specs.declared.store.Slot.{Slot};
ghost use Rattle.kc_outside.specs.declared.store.Slot.TheVariants.{Dump, Map};
ghost use Rattle.kc_outside.specs.Files.{content};
ghost use Rattle.kc_phys.specs.Stored.{AreInside};
ghost use Rattle.kc_plan.specs.Inside.{AreInside as TypesAreInside};
ghost use Rattle.kc_command.specs.Paging.{IsTable};
ghost use Rattle.kc_command.specs.Ends.Answers.{StayBehind};
ghost use Rattle.kc_app.specs.Check.{audited, check_asked, files_view};
ghost use Rattle.kc_app.specs.Held.{Holds, audited_of};
ghost use Rattle.kc_app.specs.Reads.{ReadsFiles};

use crate::plan_files::{PlanFiles, find_plan};
use kc_btf::Btf;
use kc_command::{Halt, paging_by, read_kernel};
use kc_elf::Core;
use kc_notes::Info;
use kc_outside::Store;
use kc_plan::Plan;
use kc_question::{Question, ask_dump};
use kc_word::NoMemory;
use std::alloc::Global;

/// What the four files of an audit hold. The dump stays in slot Dump.
#[derive(Drop)]
pub struct HeldFiles {
    /// The segments and notes of the dump.
    pub core: Core,
    /// What its notes tell.
    pub info: Info,
    /// The kernel's types.
    pub types: Btf,
    /// The plan, over the types and the map.
    pub plan: Plan,
}

/// Reads the dump, the types, the map and the plan.
///
/// # Errors
///
/// The first fault of these files, in their order; a failed call of the store; no memory was left.
pub fn read_held<S: Store>(
    alloc: Global,
    store: &mut S,
    asks: &PlanFiles<'_>,
) -> Result<HeldFiles, Halt>
    requires dump { S.may store.old Dump asks.now.kernel.dump.now }
    requires btf { S.may store.old Slot.Btf asks.now.kernel.btf.now }
    requires map { S.may store.old Map asks.now.kernel.map.now }
    requires plan { S.may store.old Slot.Plan asks.now.plan.now }

    ensures told { Holds
        (λ files. audited asks.now.most (files Dump asks.now.kernel.dump.now) (files Slot.Btf asks.now.kernel.btf.now)
        (files Map asks.now.kernel.map.now) (files Slot.Plan asks.now.plan.now)) (S.files store.old)
        (content (S.files store.new) Dump (S.opened store.new Dump)) result }
    ensures unopened { StayBehind (check_asked asks.now.most (files_view asks.now)).named result (S.opened store.old)
        (S.opened store.new) }
    ensures table { IfOk result (λ held. IsTable held.info.table) }
    ensures types { IfOk result (λ held. TypesAreInside (length held.types.records) held.plan.audits) }
    ensures inside { IfOk result (λ held. AreInside (S.sizes store.new Dump) held.core.segments) }

    ensures cert_opened { S.opened store.new Slot.Report ≡ S.opened store.old Slot.Report }
    ensures may { (s : Slot) (n : List ℕ) → S.may store.old s n → S.may store.new s n }
    ensures reads { ReadsFiles S.files S.faults result store.old store.new }
{
    let kernel = read_kernel(alloc, store, asks.most, &asks.kernel)?;
    let plan = find_plan(
        alloc,
        store,
        &kernel.map,
        asks.plan,
        &kernel.types,
        &kernel.info,
    )?;
    Ok(HeldFiles {
        core: kernel.core,
        info: kernel.info,
        types: kernel.types,
        plan,
    })
}

/// Asks the memory that is audited. The bytes that a segment has and the file leaves out read as the plan says.
///
/// # Errors
///
/// No memory was left; the memory isn't asked then.
pub fn ask_held<S: Store, Q: Question>(
    alloc: Global,
    store: &mut S,
    held: &HeldFiles,
    question: &Q,
) -> Result<Q::Answer, NoMemory>
    requires may { Q.may question.now }
    requires table { IsTable held.now.info.table }
    requires inside { AreInside (S.sizes store.old Dump) held.now.core.segments }

    ensures says { IfOk result (λ answer. IfSome (content (S.files store.old) Dump (S.opened store.old Dump))
        (λ bytes. Q.says question.now (audited_of held.now bytes).image answer)) }
    ensures files { S.files store.new ≡ S.files store.old }
    ensures leaves { IfOk result (λ answer. Q.leaves question.now answer (S.faults store.old) (S.faults store.new)) }
    ensures unasked { IfErr result (λ _. S.faults store.new ≡ S.faults store.old) }
{
    let segments = held.core.segments();
    let paging = paging_by(held.info);
    ask_dump(alloc, store, segments, held.plan.tail, paging, question)
}
