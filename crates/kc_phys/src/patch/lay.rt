// The bytes of a change, over bytes of the file that were read.
ghost use Rattle.std.specs.Prelude.{◌≡◌, ◌+◌, ◌<◌, ◌≤◌, ◌^◌, length, slice_set, nat_lt};
ghost use Rattle.kc_phys.specs.Patch.Changed.{BecomesPart, changed, changed_all};

use crate::patch::change::Change;

/// Lays changes over a buffer that holds the bytes of a file from the offset `start` on, one after the other.
pub fn lay_all(buffer: &mut [u8], start: u64, changes: &[Change])
    requires { start + length buffer.old < 2 ^ 64 }
    ensures { BecomesPart start (changed_all changes.now) buffer.old buffer.new }
{
    for i in 0..changes.len() {
        lay(buffer, start, &changes[i]);
    }
}

// Lays a change over a buffer that holds the bytes of a file from the offset `start` on.
fn lay(buffer: &mut [u8], start: u64, change: &Change)
    requires { start + length buffer.old < 2 ^ 64 }
    ensures { BecomesPart start (changed change.now.off change.now.value) buffer.old buffer.new }
{
    let bytes = change.value.to_le_bytes();
    for i in 0..8 {
        put(buffer, start, change.off, i, bytes[i]);
    }
}

// Puts the byte at a place after an offset of the file into such a buffer, where the place lies in it.
fn put(buffer: &mut [u8], start: u64, off: u64, i: usize, byte: u8)
    requires { start + length buffer.old < 2 ^ 64 }
    ensures { BecomesPart start (λ file. slice_set file (off + i) byte) buffer.old buffer.new }
{
    if let Some(place) = off.checked_add(i as u64)
        && place >= start
        && place - start < buffer.len() as u64
    {
        buffer[(place - start) as usize] = byte;
    }
}
