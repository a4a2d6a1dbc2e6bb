// What the definition of the output says.
ghost use Rattle.kc_cert.specs.Text.CertTexts.{TextsTold};
ghost use Rattle.kc_cert.specs.Rechecking.Laws.{AnswersAreRight, StepsAreWalks};
ghost use Rattle.kc_cert.specs.Single.{CertificatesAreOne};
ghost use Rattle.kc_app.specs.Check.{ChecksStand, ReportsShown, RootsTold};
ghost use Rattle.kc_app.specs.Headline.{ChecksEnd};
ghost use Rattle.kc_app.specs.Misfits.{MisfitsAreFirst};
ghost use Rattle.kc_app.specs.ModuleHeadline.{ModuleChecksEnd};
ghost use Rattle.kc_app.specs.Output.{ShownStand};
ghost use Rattle.kc_app.specs.StepLists.{CacheListsAre, PidListsAre, TaskListsAre};

use kc_cert::{know_answers, know_single, know_texts};
use kc_list::know_lists;
use kc_memory::know_places;
use kc_run::know_verdicts;
use kc_slub::know_free_lists;
use kc_view::know_values;

/// Does nothing. Every word of a dump that an output shows stands in the dump at the printed places. `check` shows that a
/// dump is clean exactly where every structure that the plan reaches stands, and so it ends: with 0 there, with 1 where one
/// doesn't stand, and with 2 where a file is refused. Of a plan of version 2 it shows so of each root audit. A
/// certificate is read from exactly its text, and fits a dump only where every structure stands; a dump has at
/// most one, with the walks of the verdict in its order.
pub fn know_shown()
    ensures shown { ShownStand }
    ensures checked { ChecksStand }
    ensures roots { RootsTold }
    ensures ends { ChecksEnd }
    ensures module_ends { ModuleChecksEnd }
    ensures texts { TextsTold }
    ensures right { AnswersAreRight }
    ensures order { StepsAreWalks }
    ensures single { CertificatesAreOne }
{
    know_answers();
    know_places();
    know_single();
    know_texts();
    know_values();
    know_verdicts();
}

/// Does nothing. What `check` shows has the text of the report of the verdict.
pub fn know_reports()
    ensures { ReportsShown }
{}

/// Does nothing. Where a certificate doesn't fit, the steps before the one that is named each fit as one of a walk of the plan, and that one
/// doesn't: it is missing, it isn't that of the walk that comes next, there is no such walk, or it is one too many.
pub fn know_misfits()
    ensures misfits { MisfitsAreFirst }
{}

/// Does nothing. The lists of a step of a slab cache are, for each of its memory nodes in order, the ring of partial slabs and then the free list
/// of each of these; of tasks the ring of leaders, and then, for each leader, the ring of its threads and that of the children of each; of
/// process ids, behind the table's, the chain of each in the table's order.
pub fn know_step_lists()
    ensures caches { CacheListsAre }
    ensures tasks { TaskListsAre }
    ensures pids { PidListsAre }
{
    know_free_lists();
    know_lists();
}
