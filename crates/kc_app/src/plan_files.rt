// The files of a plan on a dump, and the plan over the types and the map.
ghost use Rattle.std.specs.Prelude.{◌≡◌, ℕ, List, length, IfOk};
ghost use Rattle.kc_outside.specs.declared.store.Slot.{Slot};
ghost use Rattle.kc_outside.specs.declared.store.Slot.TheVariants.{Dump};
ghost use Rattle.kc_plan.specs.Inside.{AreInside as TypesAreInside};
ghost use Rattle.kc_plan.specs.Views.{plan_whole};
ghost use Rattle.kc_command.specs.Made.{IsOf};
ghost use Rattle.kc_app.specs.Check.{RefusesLate, planned_in};
ghost use Rattle.kc_app.specs.Reads.{ReadsFiles};

use kc_audit::read_audits;
use kc_btf::Btf;
use kc_command::{Halt, KernelFiles, read_plan_file, read_symbols};
use kc_notes::Info;
use kc_outside::Store;
use kc_plan::Plan;
use std::alloc::Global;

/// The names of the files of a plan on a dump.
#[derive(Clone, Copy)]
pub struct PlanFiles<'w> {
    /// The names of the dump, of the file of types and of the map.
    pub kernel: KernelFiles<'w>,
    /// The name of the plan.
    pub plan: &'w str,
    /// At most so many program headers has the dump.
    pub most: u32,
}

/// Reads the plan, over the types and a map with these bytes.
///
/// # Errors
///
/// The first line of the map that isn't a row; the first fault of the plan; a failed call of the store; no memory was left.
pub fn find_plan<S: Store>(
    alloc: Global,
    store: &mut S,
    map: &[u8],
    name: &str,
    types: &Btf,
    info: &Info,
) -> Result<Plan, Halt>
    requires may { S.may store.old Slot.Plan name.now }

    ensures told { IsOf plan_whole (λ files. planned_in types.now info.now map.now (files Slot.Plan name.now)) (S.files store.old) result }
    ensures unopened { RefusesLate result (S.opened store.old) (S.opened store.new) }
    ensures types { IfOk result (λ plan. TypesAreInside (length types.now.records) plan.audits) }

    ensures cert_opened { S.opened store.new Slot.Report ≡ S.opened store.old Slot.Report }
    ensures dump_opened { S.opened store.new Dump ≡ S.opened store.old Dump }
    ensures dump_sizes { S.sizes store.new Dump ≡ S.sizes store.old Dump }
    ensures may { (s : Slot) (n : List ℕ) → S.may store.old s n → S.may store.new s n }
    ensures reads { ReadsFiles S.files S.faults result store.old store.new }
{
    let symbols = read_symbols(alloc, map)?;
    let bytes = read_plan_file(alloc, store, name)?;
    read_audits(alloc, &bytes, types, &symbols, info)
}
