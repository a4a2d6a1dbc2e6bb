// What the definition of the task list says, for a reader to believe and a caller to learn.
ghost use Rattle.kc_task.specs.Laws.{HeadIsRead, TaskPlacesStand, TasksAreWalked};

use kc_list::know_lists;
use kc_memory::know_places;
use kc_view::know_values;

/// Does nothing. The tasks that make up a task list are what its walk gives, and a walk without a violation gives such
/// tasks. The words that a violation shows are true of the dump, and the one that shows T7 can be read.
pub fn know_tasks()
    ensures walked { TasksAreWalked }
    ensures places { TaskPlacesStand }
    ensures head { HeadIsRead }
{
    know_lists();
    know_places();
    know_values();
}
