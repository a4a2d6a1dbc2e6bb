// What the answer on a certificate says of the dump, for a caller to learn.
ghost use Rattle.kc_cert.specs.Rechecking.Laws.{AnswersAreRight, StepsAreWalks};

use crate::know_walked;
use kc_run::know_verdicts;

/// Does nothing. A certificate fits a dump only where every structure that the plan reaches stands there, and has the counts
/// of the verdict; its steps are then the walks of the verdict, in its order.
pub fn know_answers()
    ensures right { AnswersAreRight }
    ensures order { StepsAreWalks }
{
    know_walked();
    know_verdicts();
}
