// Text into sinks.
ghost use Rattle.std.specs.Prelude.{◌≡◌, ◌≤◌, OnOk, OnErr};
ghost use Rattle.kc_outside.specs.Counts.{Rose};
ghost use Rattle.kc_outside.specs.Texts.{with_piece};
ghost use Rattle.kc_command.specs.Ends.Ends.{TookPrefix};
ghost use Rattle.kc_command.specs.Ends.Last.{FailedLast};

use kc_outside::{Failed, Sink};

/// Puts a whole text, piece by piece, until the sink fails: it isn't called again then.
///
/// # Errors
///
/// The sink failed. It then took a first part of the text.
pub fn put_all<K: Sink>(sink: &mut K, text: &[u8]) -> Result<(), Failed>
    ensures whole { OnOk result (K.taken sink.new ≡ with_piece (K.taken sink.old) text.now) }
    ensures part { TookPrefix (K.taken sink.old) (K.taken sink.new) text.now }
    ensures later { K.faults sink.old ≤ K.faults sink.new }
    ensures quiet { OnOk result (K.faults sink.new ≡ K.faults sink.old) }
    ensures cause { OnErr result (Rose (K.faults sink.old) (K.faults sink.new)) }
    ensures last { OnErr result (FailedLast K.taken K.faults K.asked sink.old sink.new) }
{
    let mut at = 0;
    while at < text.len() {
        at += sink.put(&text[at..])?;
    }
    Ok(())
}
