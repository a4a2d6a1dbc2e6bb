// The command `recheck`: whether a certificate fits the structures of a kernel, by a plan.
ghost use Rattle.std.specs.Prelude.{◌≡◌, ◌++◌, codes, decimal, length, IfOk};
ghost use Rattle.kc_outside.specs.declared.store.Slot.{Slot};
ghost use Rattle.kc_outside.specs.declared.store.Slot.TheVariants.{Dump, Map};
ghost use Rattle.kc_outside.specs.Files.{OthersStay, content};
ghost use Rattle.kc_phys.specs.Stored.{AreInside};
ghost use Rattle.kc_plan.specs.Inside.{AreInside as TypesAreInside};
ghost use Rattle.kc_plan.specs.Views.{plan_seen};
ghost use Rattle.kc_cert.specs.Rechecking.Certificates.{answer};
ghost use Rattle.kc_cert.specs.Text.CertTexts.{cert_in};
ghost use Rattle.kc_command.specs.declared.refusal.Refusal.TheVariants.{Certificate as cert_refused};
ghost use Rattle.kc_command.specs.Halts.{NotRefused, NotStore};
ghost use Rattle.kc_command.specs.Made.{Is, IsOf, checked};
ghost use Rattle.kc_command.specs.Paging.{IsTable};
ghost use Rattle.kc_command.specs.Slots.{RefusesIn};
ghost use Rattle.kc_command.specs.Ends.Answers.{StayBehind};
ghost use Rattle.kc_app.specs.Answer.{WritesText};
ghost use Rattle.kc_app.specs.Certified.{IsFound};
ghost use Rattle.kc_app.specs.Fitted.{RepliesOf, RepliesOfBytes};
ghost use Rattle.kc_app.specs.Held.{audited_of};
ghost use Rattle.kc_app.specs.Recheck.{cert_file, cert_files, recheck_asked, recheck_made};
ghost use Rattle.kc_app.specs.Reply.{Rechecks, answer_line, answer_status};
ghost use Rattle.kc_found.specs.Failures.{CountsFailures};
ghost use Rattle.kc_app.specs.Reads.{ReadsFiles};

use crate::held::{HeldFiles, ask_held, read_held};
use crate::plan_files::PlanFiles;
use kc_audit::PlanOf;
use kc_cert::{CertAnswer, CertRead, Certificate, read_cert, recheck as recheck_plan};
use kc_command::{Answer, Halt, Refusal, read_cert_file};
use kc_found::{ReadFailed, Space};
use kc_outside::Store;
use kc_question::Question;
use kc_text::{push, push_numbered};
use kc_word::{NoMemory, Steps};
use std::alloc::Global;
use std::sync::ledger::Ledger;

/// What `recheck` asks: whether a certificate fits a dump, by a plan.
#[derive(Clone, Copy)]
pub struct Asks<'w> {
    /// The names of the dump, of the file of types, of the map and of the plan.
    pub files: PlanFiles<'w>,
    /// The name of the certificate.
    pub cert: &'w str,
}

// The answer to what is asked: the first fault of the dump, the types, the map, the plan or the certificate, else whether
// the certificate fits the dump.
pub(crate) fn recheck<S: Store>(
    alloc: Global,
    store: &mut S,
    asks: &Asks<'_>,
) -> Result<Answer, Halt>
    requires dump { S.may store.old Dump asks.now.files.kernel.dump.now }
    requires btf { S.may store.old Slot.Btf asks.now.files.kernel.btf.now }
    requires map { S.may store.old Map asks.now.files.kernel.map.now }
    requires plan { S.may store.old Slot.Plan asks.now.files.plan.now }
    requires cert { S.may store.old Slot.Report asks.now.cert.now }

    ensures output { RepliesOf
        (λ files. recheck_made asks.now.files.most (files Dump asks.now.files.kernel.dump.now) (files Slot.Btf asks.now.files.kernel.btf.now)
        (files Map asks.now.files.kernel.map.now) (files Slot.Plan asks.now.files.plan.now)
        (files Slot.Report asks.now.cert.now)) (S.files store.old) result }
    ensures unopened { StayBehind (recheck_asked asks.now.files.most (cert_files asks.now)).named result (S.opened store.old)
        (S.opened store.new) }
    ensures reads { ReadsFiles S.files S.faults result store.old store.new }
{
    let held = read_held(alloc, store, &asks.files)?;
    let cert = find_cert(alloc, store, asks.cert)?;
    rechecked(alloc, store, &held, &cert)
}

// The certificate of a file.
fn find_cert<S: Store>(alloc: Global, store: &mut S, name: &str) -> Result<Certificate, Halt>
    requires may { S.may store.old Slot.Report name.now }

    ensures told { IsOf (λ cert. cert) (λ files. cert_file (files Slot.Report name.now)) (S.files store.old) result }
    ensures refused { RefusesIn Slot.Report result }

    ensures others_opened { OthersStay Slot.Report (S.opened store.old) (S.opened store.new) }
    ensures others_sizes { OthersStay Slot.Report (S.sizes store.old) (S.sizes store.new) }
    ensures reads { ReadsFiles S.files S.faults result store.old store.new }
{
    let bytes = read_cert_file(alloc, store, name)?;
    take_cert(alloc, &bytes)
}

// The certificate whose text these bytes are.
fn take_cert(alloc: Global, bytes: &[u8]) -> Result<Certificate, Halt>
    ensures made { Is (λ cert. cert) (checked cert_refused (cert_in bytes.now)) result }
    ensures refused { RefusesIn Slot.Report result }
    ensures no_call { NotStore result }
{
    match read_cert(alloc, bytes) {
        Ok(cert) => Ok(cert),
        Err(CertRead::Z1(at)) => Err(Halt::Refused(Refusal::Certificate(at))),
        Err(CertRead::NoMemory) => Err(Halt::Memory),
    }
}

// The answer on a certificate, over what the files hold.
fn rechecked<S: Store>(
    alloc: Global,
    store: &mut S,
    held: &HeldFiles,
    cert: &Certificate,
) -> Result<Answer, Halt>
    requires table { IsTable held.now.info.table }
    requires types { TypesAreInside (length held.now.types.records) held.now.plan.audits }
    requires inside { AreInside (S.sizes store.old Dump) held.now.core.segments }

    ensures output { RepliesOfBytes
        (λ bytes. Rechecks (answer (audited_of held.now bytes).image (audited_of held.now bytes).audits cert.now))
        (content (S.files store.old) Dump (S.opened store.old Dump)) result }
    ensures not_refused { NotRefused result }
    ensures reads { ReadsFiles S.files S.faults result store.old store.new }
{
    let over = PlanOf {
        alloc,
        plan: &held.plan,
        types: &held.types,
    };
    let question = Rechecking { over, cert };
    let found = ask_held(alloc, store, held, &question)?;
    answer_of(alloc, found)
}

// The answer of what a certificate comes to, or where that isn't known.
fn answer_of(alloc: Global, found: Result<CertAnswer, ReadFailed>) -> Result<Answer, Halt>
    ensures output { IsFound found result }
    ensures not_refused { NotRefused result }
{
    match found {
        Ok(answer) => told(alloc, &answer),
        Err(ReadFailed::Fault) => Err(Halt::Store),
        Err(ReadFailed::NoMemory) => Err(Halt::Memory),
    }
}

// The answer of what a certificate comes to.
fn told(alloc: Global, answer: &CertAnswer) -> Result<Answer, Halt>
    ensures output { WritesText (answer_line answer.now) (answer_status answer.now) result }
    ensures not_refused { NotRefused result }
{
    match answer {
        CertAnswer::Yes(_) => Ok(Answer::Done(yes(alloc)?)),
        CertAnswer::No(number) => Ok(Answer::Broken(no(alloc, *number)?)),
    }
}

fn yes(alloc: Global) -> Result<Vec<u8>, NoMemory>
    ensures { IfOk result (λ text. text.items ≡ codes "yes\n") }
{
    let mut text = Vec::new(alloc);
    push(&mut text, b"yes\n")?;
    Ok(text)
}

fn no(alloc: Global, number: u64) -> Result<Vec<u8>, NoMemory>
    ensures { IfOk result (λ text. text.items ≡ codes "no step " ++ decimal number ++ codes "\n") }
{
    let mut text = Vec::new(alloc);
    push_numbered(&mut text, b"no step ", number)?;
    push(&mut text, b"\n")?;
    Ok(text)
}

// Whether a certificate fits, for all audits of a plan.
#[derive(Drop)]
struct Rechecking<'p> {
    over: PlanOf<'p>,
    cert: &'p Certificate,
}

impl<'p> Question for Rechecking<'p> {
    type Answer = Result<CertAnswer, ReadFailed>;

    ghost may = { λ of. TypesAreInside (length of.over.types.now.records) of.over.plan.now.audits };

    ghost says = { λ of image found. IfOk found (λ a. answer image (plan_seen of.over.plan.now) of.cert.now ≡ a) };

    ghost leaves = { λ of found before after. CountsFailures found before after };

    fn ask<M: Space, L: Ledger>(
        &self,
        memory: &mut M,
        steps: &mut Steps<L>,
    ) -> Result<CertAnswer, ReadFailed> {
        recheck_plan(
            self.over.alloc,
            self.over.plan,
            self.over.types,
            memory,
            self.cert,
            steps,
        )
    }
}
