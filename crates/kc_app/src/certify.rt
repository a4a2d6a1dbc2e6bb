// The command `certify`: a certificate of the structures of a kernel, by a plan.
ghost use Rattle.std.specs.Prelude.{length, Some};
ghost use Rattle.kc_outside.specs.declared.store.Slot.{Slot};
ghost use Rattle.kc_outside.specs.declared.store.Slot.TheVariants.{Dump, Map};
ghost use Rattle.kc_outside.specs.Files.{content};
ghost use Rattle.kc_phys.specs.Stored.{AreInside};
ghost use Rattle.kc_plan.specs.Inside.{AreInside as TypesAreInside};
ghost use Rattle.kc_plan.specs.Views.{plan_seen};
ghost use Rattle.kc_cert.specs.Certifying.Certified.{CertifiesAs, CountsCertifyFaults, NamesAudit};
ghost use Rattle.kc_command.specs.Halts.{NotRefused};
ghost use Rattle.kc_command.specs.Paging.{IsTable};
ghost use Rattle.kc_command.specs.Ends.Answers.{StayBehind};
ghost use Rattle.kc_app.specs.Certify.{certified, certify_asked, certify_made};
ghost use Rattle.kc_app.specs.Check.{files_view};
ghost use Rattle.kc_app.specs.Fitted.{RepliesOf, RepliesOfBytes};
ghost use Rattle.kc_app.specs.Held.{audited_of};
ghost use Rattle.kc_app.specs.Certified.{IsMade, IsSpelled, IsUnclean, NamesIn};
ghost use Rattle.kc_app.specs.Reads.{ReadsFiles};

use crate::held::{HeldFiles, ask_held, read_held};
use crate::plan_files::PlanFiles;
use crate::verdict::answer;
use kc_audit::{PlanOf, names_of};
use kc_cert::{CertStop, Certificate, cert_text, certify as certify_plan};
use kc_command::{Answer, Halt};
use kc_found::{Space, Verdict};
use kc_outside::Store;
use kc_question::Question;
use kc_report::PlanNames;
use kc_word::Steps;
use std::alloc::Global;
use std::sync::ledger::Ledger;

// The answer to what is asked: the first fault of the dump, the types, the map or the plan, else a certificate of the
// dump, or where it has a violation what `check` tells of it.
pub(crate) fn certify<S: Store>(
    alloc: Global,
    store: &mut S,
    asks: &PlanFiles<'_>,
) -> Result<Answer, Halt>
    requires dump { S.may store.old Dump asks.now.kernel.dump.now }
    requires btf { S.may store.old Slot.Btf asks.now.kernel.btf.now }
    requires map { S.may store.old Map asks.now.kernel.map.now }
    requires plan { S.may store.old Slot.Plan asks.now.plan.now }

    ensures output { RepliesOf
        (λ files. certify_made asks.now.most (files Dump asks.now.kernel.dump.now) (files Slot.Btf asks.now.kernel.btf.now)
        (files Map asks.now.kernel.map.now) (files Slot.Plan asks.now.plan.now)) (S.files store.old) result }
    ensures unopened { StayBehind (certify_asked asks.now.most (files_view asks.now)).named result (S.opened store.old)
        (S.opened store.new) }
    ensures reads { ReadsFiles S.files S.faults result store.old store.new }
{
    let held = read_held(alloc, store, asks)?;
    certified(alloc, store, &held)
}

// The answer on what the files hold.
fn certified<S: Store>(alloc: Global, store: &mut S, held: &HeldFiles) -> Result<Answer, Halt>
    requires table { IsTable held.now.info.table }
    requires types { TypesAreInside (length held.now.types.records) held.now.plan.audits }
    requires inside { AreInside (S.sizes store.old Dump) held.now.core.segments }

    ensures output { RepliesOfBytes (λ bytes. certified (audited_of held.now bytes))
        (content (S.files store.old) Dump (S.opened store.old Dump)) result }
    ensures not_refused { NotRefused result }
    ensures reads { ReadsFiles S.files S.faults result store.old store.new }
{
    let plan = &held.plan;
    let names = names_of(alloc, plan)?;
    let over = PlanOf {
        alloc,
        plan,
        types: &held.types,
    };
    let question = Certifying(over);
    let made = ask_held(alloc, store, held, &question)?;
    answer_of(alloc, &names, made)
}

// The answer of a certificate, or where there is none.
fn answer_of(
    alloc: Global,
    names: &PlanNames,
    made: Result<Certificate, CertStop>,
) -> Result<Answer, Halt>
    requires { NamesAudit made (length names.now) }
    ensures output { IsMade names.now made result }
    ensures not_refused { NotRefused result }
{
    match made {
        Ok(cert) => spelled(alloc, &cert),
        Err(stop) => unclean(alloc, names, stop),
    }
}

// The answer of a certificate.
fn spelled(alloc: Global, cert: &Certificate) -> Result<Answer, Halt>
    ensures output { IsSpelled cert.now result }
    ensures not_refused { NotRefused result }
{
    Ok(Answer::Done(cert_text(alloc, cert)?))
}

// The answer where there is no certificate.
fn unclean(alloc: Global, names: &PlanNames, stop: CertStop) -> Result<Answer, Halt>
    requires { NamesIn (length names.now) stop }
    ensures output { IsUnclean names.now stop result }
    ensures not_refused { NotRefused result }
{
    match stop {
        CertStop::Broken(found) => answer(alloc, names, &Verdict::Broken(found)),
        CertStop::Fault => Err(Halt::Store),
        CertStop::NoMemory => Err(Halt::Memory),
    }
}

// A certificate of all audits of a plan.
#[derive(Drop)]
struct Certifying<'p>(PlanOf<'p>);

impl<'p> Question for Certifying<'p> {
    type Answer = Result<Certificate, CertStop>;

    ghost may = { λ of. TypesAreInside (length of.0.types.now.records) of.0.plan.now.audits };

    ghost says = { λ of image answer. CertifiesAs (Some image) (plan_seen of.0.plan.now) answer };

    ghost leaves = { λ of answer before after.
        NamesAudit answer (length of.0.plan.now.audits) × CountsCertifyFaults answer before after };

    fn ask<M: Space, L: Ledger>(
        &self,
        memory: &mut M,
        steps: &mut Steps<L>,
    ) -> Result<Certificate, CertStop> {
        certify_plan(self.0.alloc, self.0.plan, self.0.types, memory, steps)
    }
}
