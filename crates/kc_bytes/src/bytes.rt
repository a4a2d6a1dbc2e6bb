// Many bytes of virtual memory.
ghost use Rattle.std.specs.Prelude.{◌≡◌};
ghost use Rattle.kc_memory.specs.Stays.{SpaceStays};
ghost use Rattle.kc_bytes.specs.Bytes.{bytes_at};
ghost use Rattle.kc_bytes.specs.Reading.{CountsReadFaults, ReadsAs};

use crate::cursor::Cursor;
use crate::stop::BytesStop;
use kc_memory::Space;
use kc_word::Steps;
use std::alloc::Global;
use std::sync::ledger::Ledger;

/// So many bytes of virtual memory from an address on. It takes their memory at once.
///
/// # Errors
///
/// The first word that can't be read; no memory was left.
pub fn read_bytes<S: Space, L: Ledger>(
    alloc: Global,
    space: &mut S,
    at: u64,
    count: usize,
    steps: &mut Steps<L>,
) -> Result<Vec<u8>, BytesStop>
    ensures bytes { ReadsAs (λ v. v.items) (λ image. bytes_at image count at) (S.image space.old) result }
    ensures stays { SpaceStays S.image S.files S.through S.most space.old space.new }
    ensures cause { CountsReadFaults result (S.faults space.old) (S.faults space.new) }
{
    let mut bytes = Vec::with_capacity(alloc, count)?;
    let mut cursor = Cursor::new(at);
    for i in 0..count {
        let byte = cursor.next(space, steps)?;
        bytes.push(byte)?;
    }
    Ok(bytes)
}
