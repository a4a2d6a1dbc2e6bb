// Zeros up to a place.
ghost use Rattle.std.specs.Prelude.{◌≡◌, ◌≤◌, OnOk, vec_len};
ghost use Rattle.kc_plain.specs.Head.{padded};

use kc_word::NoMemory;

// Puts zeros after some bytes, up to a place.
pub(crate) fn pad(bytes: &mut Vec<u8>, end: u64) -> Result<(), NoMemory>
    ensures value { OnOk result (bytes.new.items ≡ padded end bytes.old.items) }
    ensures end { OnOk result (vec_len bytes.old ≤ end → vec_len bytes.new ≡ end) }
{
    while (bytes.len() as u64) < end {
        bytes.push(0)?;
    }
    Ok(())
}
