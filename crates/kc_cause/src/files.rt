// The files of a report, and what explains it.
ghost use Rattle.std.specs.Prelude.{◌≡◌, ◌≤◌, ◌+◌, ◌^◌, max, Some, ℕ, List, length, IfSome};
ghost use Rattle.std.specs.List.{All};
ghost use Rattle.kc_outside.specs.declared.store.Slot.{Slot};
ghost use Rattle.kc_outside.specs.declared.store.Slot.TheVariants.{Dump, Map};
ghost use Rattle.kc_outside.specs.Counts.{Rose};
ghost use Rattle.kc_outside.specs.Files.{OthersStay, content};
ghost use Rattle.kc_memory.specs.Stays.{FramesStay};
ghost use Rattle.kc_phys.specs.Stored.{AreInside};
ghost use Rattle.kc_mem.specs.Paged.{with_paging};
ghost use Rattle.kc_view.specs.TaskLists.{IsInside};
ghost use Rattle.kc_plan.specs.Inside.{AreInside as TypesAreInside};
ghost use Rattle.kc_plan.specs.Views.{plan_seen};
ghost use Rattle.kc_command.specs.Halts.{NotRefused, NotStore, OnStore, UnlessStore};
ghost use Rattle.kc_notes.specs.Notes.{text_in};
ghost use Rattle.kc_command.specs.declared.refusal.Refusal.TheVariants.{Notes};
ghost use Rattle.kc_command.specs.Made.{Is, IsOf, Tells as Gives, checked};
ghost use Rattle.kc_command.specs.Paging.{IsTable};
ghost use Rattle.kc_command.specs.Slots.{IsAbout, RefusesIn};
ghost use Rattle.kc_command.specs.Ends.Answers.{Prints, PrintsOf, PrintsOfBytes, StayBehind};
ghost use Rattle.kc_cause.specs.Explained.{cause_made, causes_text, compared, explained_written, or_clean, report_file, report_passed};
ghost use Rattle.kc_cause.specs.Files.{cause_asked, explained_of, report_files};
ghost use Rattle.kc_cause.specs.Judged.{Compares, FitsJudged, FitsTogether, JudgesAs, Tells, is_reported, over_plan};

use crate::explained::explained_text;
use crate::judged::{Judged, PlanOf, judge_over, report_text};
use crate::planned::{KernelRead, Planned, find_plan};
use crate::repairs::Repairable;
use kc_audit::names_of;
use kc_command::{
    Answer, Halt, KernelFiles, Refusal, ReportFault, VIEW_HEADERS, paging_by, read_map, read_noted,
    read_report_file, read_types,
};
use kc_elf::Core;
use kc_found::ReadFailed;
use kc_notes::vmcoreinfo;
use kc_outside::Store;
use kc_phys::{Phys, Room};
use kc_question::Returned;
use kc_report::{ReportStop, read_report};
use kc_slab_page::frame_runs;
use std::alloc::Global;

/// A report, with the files of its audit.
#[derive(Clone, Copy)]
pub struct Asks<'w> {
    /// The names of the dump, of the file of types and of the map.
    pub files: KernelFiles<'w>,
    /// The name of the plan.
    pub plan: &'w str,
    /// The name of the report.
    pub report: &'w str,
}

/// The text that explains a report: the first fault of the dump, the types, the map, the plan or the report, else what explains it.
///
/// # Errors
///
/// That fault; a failed call of the store; no memory was left.
pub fn explain<S: Store>(alloc: Global, store: &mut S, asks: &Asks<'_>) -> Result<Answer, Halt>
    requires dump { S.may store.old Dump asks.now.files.dump.now }
    requires btf { S.may store.old Slot.Btf asks.now.files.btf.now }
    requires map { S.may store.old Map asks.now.files.map.now }
    requires plan { S.may store.old Slot.Plan asks.now.plan.now }
    requires report { S.may store.old Slot.Report asks.now.report.now }

    ensures output { PrintsOf explained_written
        (λ files. cause_made (files Dump asks.now.files.dump.now) (files Slot.Btf asks.now.files.btf.now)
        (files Map asks.now.files.map.now) (files Slot.Plan asks.now.plan.now)
        (files Slot.Report asks.now.report.now)) (S.files store.old) result }
    ensures unopened { StayBehind (cause_asked (report_files asks.now)).named result (S.opened store.old)
        (S.opened store.new) }
    ensures files { S.files store.new ≡ S.files store.old }
    ensures later { S.faults store.old ≤ S.faults store.new }
    ensures quiet { UnlessStore result (S.faults store.new ≡ S.faults store.old) }
    ensures cause { OnStore result (Rose (S.faults store.old) (S.faults store.new)) }
{
    let noted = read_noted(alloc, store, VIEW_HEADERS, asks.files.dump)?;
    let note = read_note(&noted.core)?;
    let types = read_types(alloc, store, asks.files.btf)?;
    let map = read_map(alloc, store, asks.files.map)?;
    let kernel = KernelRead {
        core: &noted.core,
        info: noted.info,
        note,
        types: &types,
        map: &map,
    };
    let planned = find_plan(alloc, store, asks.plan, &kernel)?;
    let report = find_report(alloc, store, asks.report)?;
    explain_read(alloc, store, &kernel, &planned, &report)
}

// The text of a dump's VMCOREINFO.
fn read_note(core: &Core) -> Result<&[u8], Refusal>
    ensures made { Gives (λ note. note.now) (checked Notes (text_in core.now.notes)) result }
    ensures refused { IsAbout (Some Dump) result }
{
    Ok(vmcoreinfo(core)?)
}

// The bytes of a file that is a report.
fn find_report<S: Store>(alloc: Global, store: &mut S, name: &str) -> Result<Vec<u8>, Halt>
    requires may { S.may store.old Slot.Report name.now }

    ensures told { IsOf (λ report. report.items) (λ files. report_file (files Slot.Report name.now)) (S.files store.old) result }
    ensures refused { RefusesIn Slot.Report result }

    ensures others_opened { OthersStay Slot.Report (S.opened store.old) (S.opened store.new) }
    ensures others_sizes { OthersStay Slot.Report (S.sizes store.old) (S.sizes store.new) }
    ensures files { S.files store.new ≡ S.files store.old }
    ensures later { S.faults store.old ≤ S.faults store.new }
    ensures quiet { UnlessStore result (S.faults store.new ≡ S.faults store.old) }
    ensures cause { OnStore result (Rose (S.faults store.old) (S.faults store.new)) }
{
    let bytes = read_report_file(alloc, store, name)?;
    pass_report(alloc, bytes)
}

// The same bytes, where they are the text of a report.
fn pass_report(alloc: Global, bytes: Vec<u8>) -> Result<Vec<u8>, Halt>
    ensures made { Is (λ report. report.items) (report_passed bytes.items) result }
    ensures refused { RefusesIn Slot.Report result }
    ensures no_call { NotStore result }
{
    match read_report(alloc, &bytes) {
        Ok(_) => Ok(bytes),
        Err(ReportStop::Y1(at)) => Err(Halt::Refused(Refusal::Report(ReportFault::Y1(at)))),
        Err(ReportStop::NoMemory) => Err(Halt::Memory),
    }
}

// What explains the report of what the files hold, with these bytes, which are a report's.
fn explain_read<S: Store>(
    alloc: Global,
    store: &mut S,
    kernel: &KernelRead<'_>,
    planned: &Planned<'_>,
    report: &[u8],
) -> Result<Answer, Halt>
    requires table { IsTable kernel.now.info.table }
    requires types { TypesAreInside (length kernel.now.types.now.records) planned.now.plan.audits }
    requires tasks { IfSome planned.now.shapes.words.areas.stacks (λ shape. IsInside shape.tasks kernel.now.types.now) }
    requires inside { AreInside (S.sizes store.old Dump) kernel.now.core.now.segments }
    requires below { All (λ s. s.paddr + max s.filesz s.memsz ≤ 2 ^ 64) kernel.now.core.now.segments }

    ensures output { PrintsOfBytes explained_written (λ bytes. compared (explained_of kernel.now planned.now bytes) report.now)
        (content (S.files store.old) Dump (S.opened store.old Dump)) result }
    ensures refused { RefusesIn Slot.Report result }
    ensures files { S.files store.new ≡ S.files store.old }
    ensures later { S.faults store.old ≤ S.faults store.new }
    ensures quiet { UnlessStore result (S.faults store.new ≡ S.faults store.old) }
    ensures cause { OnStore result (Rose (S.faults store.old) (S.faults store.new)) }
{
    let segments = kernel.core.segments();
    let runs = frame_runs(alloc, segments)?;
    let room = Room::new(alloc, segments, planned.plan.tail)?;
    let over = PlanOf {
        alloc,
        plan: &planned.plan,
        types: kernel.types,
        shapes: planned.shapes,
        slabs: planned.slabs,
        runs: &runs,
        paging: paging_by(kernel.info),
    };
    let memory = Phys::over(store, room);
    let Returned { memory, answer } = explain_over(memory, &over, report);
    let _store = memory.into_store();
    answer
}

// The same over the physical memory of the dump.
fn explain_over<F: Repairable>(
    memory: F,
    over: &PlanOf<'_>,
    report: &[u8],
) -> Returned<F, Result<Answer, Halt>>
    requires over { FitsTogether over.now }

    ensures output { IfSome (with_paging over.now.paging (F.image memory)) (λ image.
        Prints explained_written (compared (over_plan over.now image) report.now) result.answer) }
    ensures refused { RefusesIn Slot.Report result.answer }
    ensures stays { FramesStay F.image F.files F.through memory result.memory }
    ensures later { F.faults memory ≤ F.faults result.memory }
    ensures quiet { UnlessStore result.answer (F.faults result.memory ≡ F.faults memory) }
    ensures cause { OnStore result.answer (Rose (F.faults memory) (F.faults result.memory)) }
{
    let Returned { memory, answer } = judge_over(memory, over);
    match answer {
        Ok(judged) => explain_judged(memory, over, &judged, report),
        Err(ReadFailed::Fault) => Returned {
            memory,
            answer: Err(Halt::Store),
        },
        Err(ReadFailed::NoMemory) => Returned {
            memory,
            answer: Err(Halt::Memory),
        },
    }
}

// The same of what was judged.
fn explain_judged<F: Repairable>(
    memory: F,
    over: &PlanOf<'_>,
    judged: &Judged,
    report: &[u8],
) -> Returned<F, Result<Answer, Halt>>
    requires over { FitsTogether over.now }
    requires fits { FitsJudged (length over.now.plan.now.audits) (plan_seen over.now.plan.now) judged.now }
    requires says { IfSome (with_paging over.now.paging (F.image memory)) (λ image. JudgesAs image over.now.plan.now judged.now) }

    ensures output { IfSome (with_paging over.now.paging (F.image memory)) (λ image.
        Prints explained_written (compared (over_plan over.now image) report.now) result.answer) }
    ensures refused { RefusesIn Slot.Report result.answer }
    ensures stays { FramesStay F.image F.files F.through memory result.memory }
    ensures later { F.faults memory ≤ F.faults result.memory }
    ensures quiet { UnlessStore result.answer (F.faults result.memory ≡ F.faults memory) }
    ensures cause { OnStore result.answer (Rose (F.faults memory) (F.faults result.memory)) }
{
    match compare(over, judged, report) {
        Ok(()) => tell(memory, over, judged),
        Err(halt) => Returned {
            memory,
            answer: Err(halt),
        },
    }
}

// Whether these bytes are the report of what was judged.
fn compare(over: &PlanOf<'_>, judged: &Judged, report: &[u8]) -> Result<(), Halt>
    requires fits { FitsJudged (length over.now.plan.now.audits) (plan_seen over.now.plan.now) judged.now }
    ensures { Compares (is_reported over.now.plan.now judged.now report.now) result }
{
    let names = names_of(over.alloc, over.plan)?;
    let now = report_text(over.alloc, &names, judged)?;
    if now.as_slice() == report {
        Ok(())
    } else {
        Err(Halt::Refused(Refusal::Report(ReportFault::Y2)))
    }
}

// The answer on what was judged.
fn tell<F: Repairable>(
    memory: F,
    over: &PlanOf<'_>,
    judged: &Judged,
) -> Returned<F, Result<Answer, Halt>>
    requires over { FitsTogether over.now }
    requires fits { FitsJudged (length over.now.plan.now.audits) (plan_seen over.now.plan.now) judged.now }

    ensures says { IfSome (with_paging over.now.paging (F.image memory)) (λ image.
        Tells (or_clean (causes_text (over_plan over.now image) judged.now.roots)) result.answer) }
    ensures not_refused { NotRefused result.answer }
    ensures stays { FramesStay F.image F.files F.through memory result.memory }
    ensures later { F.faults memory ≤ F.faults result.memory }
    ensures quiet { UnlessStore result.answer (F.faults result.memory ≡ F.faults memory) }
    ensures cause { OnStore result.answer (Rose (F.faults memory) (F.faults result.memory)) }
{
    let Returned { memory, answer } = explained_text(memory, over, &judged.roots);
    let answer = match answer {
        Ok(text) => Ok(Answer::Done(text)),
        Err(ReadFailed::Fault) => Err(Halt::Store),
        Err(ReadFailed::NoMemory) => Err(Halt::Memory),
    };
    Returned { memory, answer }
}
