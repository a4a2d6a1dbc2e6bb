// A question to the memory over a physical one.
ghost use Rattle.std.specs.Prelude.{◌≡◌, ◌<◌, ◌%◌, ◌^◌, IfErr, IfOk, IfSome};
ghost use Rattle.kc_memory.specs.Stays.{FramesStay};
ghost use Rattle.kc_tlb.specs.Entries.{AreEmpty};
ghost use Rattle.kc_mem.specs.Paged.{with_paging};

use crate::question::Question;
use kc_mem::Memory;
use kc_memory::Frames;
use kc_tlb::Tlb;
use kc_word::{NoMemory, PageCfg, Steps};
use std::alloc::Global;
use std::marker::Brand;
use std::sync::ledger::{Blank, Ledger};

/// How many translations of pages are kept.
const KEPT: usize = 4096;

/// What was asked of a physical memory, which is handed back.
#[derive(Drop)]
pub struct Returned<F, A> {
    /// The physical memory.
    pub memory: F,
    /// The answer.
    pub answer: A,
}

/// Asks the memory over a physical one, by the page tables below this top table.
///
/// # Errors
///
/// The answer is `NoMemory` where there is none for the translations that are kept. The memory isn't asked then.
pub fn ask_over<F: Frames, Q: Question>(
    alloc: Global,
    memory: F,
    paging: PageCfg,
    question: &Q,
) -> Returned<F, Result<Q::Answer, NoMemory>>
    requires may { Q.may question.now }
    requires aligned { paging.table % 4096 ≡ 0 }
    requires small { paging.table < 2 ^ 52 }

    ensures says { IfOk result.answer (λ answer. IfSome (with_paging paging (F.image memory)) (λ image. Q.says question.now image answer)) }
    ensures stays { FramesStay F.image F.files F.through memory result.memory }
    ensures leaves { IfOk result.answer (λ answer. Q.leaves question.now answer (F.faults memory) (F.faults result.memory)) }
    ensures unasked { IfErr result.answer (λ _. F.faults result.memory ≡ F.faults memory) }
{
    match Tlb::new(alloc, paging, KEPT) {
        Ok(tlb) => ask_counted::<F, Q, Brand>(memory, tlb, question, Blank::new(1)),
        Err(NoMemory) => Returned {
            memory,
            answer: Err(NoMemory),
        },
    }
}

// The same with places for translations, and steps on a blank of the caller's.
fn ask_counted<F: Frames, Q: Question, L: Ledger>(
    memory: F,
    tlb: Tlb,
    question: &Q,
    blank: Blank,
) -> Returned<F, Result<Q::Answer, NoMemory>>
    requires name { blank.name ≡ L.name }
    requires parts { blank.parts ≡ L.parts }
    requires some { 0 < L.parts }
    requires may { Q.may question.now }
    requires empty { AreEmpty tlb.places.items }

    ensures says { IfOk result.answer (λ answer. IfSome (with_paging tlb.paging (F.image memory)) (λ image. Q.says question.now image answer)) }
    ensures stays { FramesStay F.image F.files F.through memory result.memory }
    ensures leaves { IfOk result.answer (λ answer. Q.leaves question.now answer (F.faults memory) (F.faults result.memory)) }
    ensures asked { IfErr result.answer (λ _. F.faults result.memory ≡ F.faults memory) }
{
    let mut steps = Steps::<L>::new(blank);
    let mut space = Memory::over(memory, tlb);
    let answer = question.ask(&mut space, &mut steps);
    Returned {
        memory: space.into_frames(),
        answer: Ok(answer),
    }
}
