// The answer where memory can't be read.
ghost use Rattle.kc_app.specs.Answer.{IsStopped};

use kc_command::{Answer, Halt};
use kc_memory::Stop;
use kc_report::broken_text;
use std::alloc::Global;

/// The answer where memory can't be read.
pub fn stopped(alloc: Global, stop: Stop) -> Result<Answer, Halt>
    ensures output { IsStopped stop result }
{
    match stop {
        Stop::Miss(miss) => Ok(Answer::Broken(broken_text(alloc, miss)?)),
        Stop::Fault => Err(Halt::Store),
    }
}
