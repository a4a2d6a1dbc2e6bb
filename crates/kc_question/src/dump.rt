// A question to the memory of a dump in a store.
ghost use Rattle.std.specs.Prelude.{◌≡◌, ◌<◌, ◌%◌, ◌^◌, IfErr, IfOk, IfSome};
ghost use Rattle.kc_outside.specs.declared.store.Slot.TheVariants.{Dump};
ghost use Rattle.kc_outside.specs.Files.{content};
ghost use Rattle.kc_phys.specs.Stored.{AreInside};
ghost use Rattle.kc_question.specs.Memory.{image_of};

use crate::over::{Returned, ask_over};
use crate::question::Question;
use kc_outside::Store;
use kc_phys::{Phys, Room};
use kc_word::{NoMemory, PageCfg, Segment, Tail};
use std::alloc::Global;

/// Asks the memory of the dump that was read and lies in slot Dump, by its segments and the page tables below this top table. The bytes
/// that a segment has and the file leaves out read as `tail` says.
///
/// # Errors
///
/// No memory was left; the memory isn't asked then.
pub fn ask_dump<S: Store, Q: Question>(
    alloc: Global,
    store: &mut S,
    segments: &[Segment],
    tail: Tail,
    paging: PageCfg,
    question: &Q,
) -> Result<Q::Answer, NoMemory>
    requires may { Q.may question.now }
    requires aligned { paging.table % 4096 ≡ 0 }
    requires small { paging.table < 2 ^ 52 }
    requires inside { AreInside (S.sizes store.old Dump) segments.now }

    ensures says { IfOk result (λ answer. IfSome (content (S.files store.old) Dump (S.opened store.old Dump))
        (λ bytes. Q.says question.now (image_of bytes segments.now tail paging) answer)) }
    ensures files { S.files store.new ≡ S.files store.old }
    ensures leaves { IfOk result (λ answer. Q.leaves question.now answer (S.faults store.old) (S.faults store.new)) }
    ensures unasked { IfErr result (λ _. S.faults store.new ≡ S.faults store.old) }
{
    let room = Room::new(alloc, segments, tail)?;
    let Returned { memory, answer } = ask_over(alloc, Phys::over(store, room), paging, question);
    let _store = memory.into_store();
    answer
}
