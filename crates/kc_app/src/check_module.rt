// The command `check` over the types of a kernel with those of a module of it.
ghost use Rattle.std.specs.Prelude.{◌≡◌, length, map, option_map, IfOk};
ghost use Rattle.std.specs.Option.{ForSome};
ghost use Rattle.std.specs.String.{string_bytes};
ghost use Rattle.kc_outside.specs.declared.store.Slot.{Slot};
ghost use Rattle.kc_outside.specs.declared.store.Slot.TheVariants.{Dump, Map};
ghost use Rattle.kc_outside.specs.Files.{content};
ghost use Rattle.kc_phys.specs.Stored.{AreInside};
ghost use Rattle.kc_plan.specs.Inside.{AreInside as TypesAreInside};
ghost use Rattle.kc_command.specs.Paging.{IsTable};
ghost use Rattle.kc_command.specs.Ends.Answers.{OnNone, PrintsOf, Runs, StayBehind};
ghost use Rattle.kc_command.specs.Ends.Asked.{word_in};
ghost use Rattle.kc_app.specs.CheckModule.{audited_with, checks_asks, five_view, module_asked, module_asks, module_made, module_view};
ghost use Rattle.kc_app.specs.Held.{Holds};
ghost use Rattle.kc_app.specs.Shown.{shown_written};
ghost use Rattle.kc_app.specs.Reads.{ReadsFiles, ReadsFilesIn};

use crate::held::HeldFiles;
use crate::plan_files::{PlanFiles, find_plan};
use crate::verdict::judge;
use kc_command::{Answer, Halt, KernelFiles, read_map, read_module, read_noted, read_types};
use kc_outside::Store;
use std::alloc::Global;

/// What the longer form of `check` asks: the verdict on a dump, by a plan that may name types of a module.
#[derive(Clone, Copy)]
pub struct Asks<'w> {
    /// The names of the dump, of the file of types, of the map and of the plan.
    pub files: PlanFiles<'w>,
    /// The name of the file of the module's types.
    pub split: &'w str,
}

// What the words ask.
fn read(most: u32, words: &[String]) -> Option<Asks<'_>>
    ensures asked { option_map module_view result ≡ module_asks most (map string_bytes words.now) }
{
    let [dump, btf, map, plan, split] = words else {
        return None;
    };
    let kernel = KernelFiles {
        dump: dump.as_str(),
        btf: btf.as_str(),
        map: map.as_str(),
    };
    let files = PlanFiles {
        kernel,
        plan: plan.as_str(),
        most,
    };
    Some(Asks {
        files,
        split: split.as_str(),
    })
}

/// Runs `check` on its words: the first fault of the dump, the types, the module's where the words name one, the map or
/// the plan, else the verdict of the plan on the dump. `None` where these aren't its words; the store isn't asked then.
pub fn run<S: Store>(
    alloc: Global,
    store: &mut S,
    most: u32,
    words: &[String],
) -> Option<Result<Answer, Halt>>
    requires { (slot : Slot) → ForSome (word_in (checks_asks most (map string_bytes words.now)) slot) (S.may store.old slot) }

    ensures output { Runs shown_written (checks_asks most (map string_bytes words.now)) (S.files store.old) result
        (S.opened store.old) (S.opened store.new) }
    ensures unasked { OnNone result (S.asked store.new ≡ S.asked store.old) }
    ensures reads { ReadsFilesIn S.files S.faults result store.old store.new }
{
    match read(most, words) {
        Some(asks) => Some(check(alloc, store, &asks)),
        None => crate::check::run(alloc, store, most, words),
    }
}

// The answer to what the longer form asks.
fn check<S: Store>(alloc: Global, store: &mut S, asks: &Asks<'_>) -> Result<Answer, Halt>
    requires dump { S.may store.old Dump asks.now.files.kernel.dump.now }
    requires btf { S.may store.old Slot.Btf asks.now.files.kernel.btf.now }
    requires split { S.may store.old Slot.Module asks.now.split.now }
    requires map { S.may store.old Map asks.now.files.kernel.map.now }
    requires plan { S.may store.old Slot.Plan asks.now.files.plan.now }

    ensures output { PrintsOf shown_written
        (λ files. module_made asks.now.files.most (files Dump asks.now.files.kernel.dump.now) (files Slot.Btf asks.now.files.kernel.btf.now)
        (files Slot.Module asks.now.split.now) (files Map asks.now.files.kernel.map.now)
        (files Slot.Plan asks.now.files.plan.now)) (S.files store.old) result }
    ensures unopened { StayBehind (module_asked asks.now.files.most (five_view asks.now)).named result (S.opened store.old)
        (S.opened store.new) }
    ensures reads { ReadsFiles S.files S.faults result store.old store.new }
{
    let held = read_joined(alloc, store, asks)?;
    judge(alloc, store, &held)
}

// What the files hold, or their first fault.
fn read_joined<S: Store>(alloc: Global, store: &mut S, asks: &Asks<'_>) -> Result<HeldFiles, Halt>
    requires dump { S.may store.old Dump asks.now.files.kernel.dump.now }
    requires btf { S.may store.old Slot.Btf asks.now.files.kernel.btf.now }
    requires split { S.may store.old Slot.Module asks.now.split.now }
    requires map { S.may store.old Map asks.now.files.kernel.map.now }
    requires plan { S.may store.old Slot.Plan asks.now.files.plan.now }

    ensures told { Holds
        (λ files. audited_with asks.now.files.most (files Dump asks.now.files.kernel.dump.now) (files Slot.Btf asks.now.files.kernel.btf.now)
        (files Slot.Module asks.now.split.now) (files Map asks.now.files.kernel.map.now)
        (files Slot.Plan asks.now.files.plan.now)) (S.files store.old)
        (content (S.files store.new) Dump (S.opened store.new Dump)) result }
    ensures unopened { StayBehind (module_asked asks.now.files.most (five_view asks.now)).named result (S.opened store.old)
        (S.opened store.new) }
    ensures table { IfOk result (λ held. IsTable held.info.table) }
    ensures types { IfOk result (λ held. TypesAreInside (length held.types.records) held.plan.audits) }
    ensures inside { IfOk result (λ held. AreInside (S.sizes store.new Dump) held.core.segments) }

    ensures reads { ReadsFiles S.files S.faults result store.old store.new }
{
    let noted = read_noted(alloc, store, asks.files.most, asks.files.kernel.dump)?;
    let base = read_types(alloc, store, asks.files.kernel.btf)?;
    let types = read_module(alloc, store, asks.split, &base)?;
    let map = read_map(alloc, store, asks.files.kernel.map)?;
    let plan = find_plan(alloc, store, &map, asks.files.plan, &types, &noted.info)?;
    Ok(HeldFiles {
        core: noted.core,
        info: noted.info,
        types,
        plan,
    })
}
