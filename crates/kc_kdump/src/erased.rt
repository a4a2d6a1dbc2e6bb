// The erase info, as a note after the others.
ghost use Rattle.std.specs.Prelude.{◌≡◌, ◌≤◌, ◌+◌, ◌-◌, ◌%◌, ◌^◌, ◌++◌, length, IfOk, OnOk, vec_len};
ghost use Rattle.kc_kdump.specs.Erased.{erase_head, joined, joined_size, padded, padded_size};

use std::alloc::{AllocError, Global};

// How many bytes the name has with its zero.
const NAME_BYTES: u32 = 10;

// How many zeros come after so many bytes.
fn missing(size: u64) -> u64
    ensures value { result ≡ (4 - size % 4) % 4 }
    ensures few { result ≤ 3 }
{
    (4 - size % 4) % 4
}

// So many bytes with the zeros after them.
fn padded_size(size: u64) -> u64
    requires { size ≤ 2 ^ 40 }
    ensures value { result ≡ padded_size size }
    ensures near { result ≤ size + 3 }
{
    size + missing(size)
}

/// How many bytes notes and erase info of these sizes have together, as notes.
#[tactic(auto, unfolding(crate::specs::Erased::joined_size))]
pub(crate) fn joined_size(notes: u64, erased: u64) -> u64
    requires notes { notes ≤ 2 ^ 32 }
    requires erased { erased ≤ 2 ^ 32 }
    ensures { result ≡ joined_size notes erased }
{
    if erased == 0 {
        notes
    } else {
        padded_size(padded_size(notes) + 24 + erased)
    }
}

// Puts zeros after some bytes, up to a multiple of 4.
fn pad(bytes: &mut Vec<u8>) -> Result<(), AllocError>
    ensures { OnOk result (bytes.new.items ≡ padded bytes.old.items) }
{
    let count = missing(bytes.len() as u64) as usize;
    bytes.extend_from_slice(&[0; 3][..count])?;
    Ok(())
}

// The head of the note of an erase info of so many bytes.
fn erase_head(alloc: Global, size: u32) -> Result<Vec<u8>, AllocError>
    ensures { IfOk result (λ bytes. bytes.items ≡ erase_head size) }
{
    let mut bytes = Vec::new(alloc);
    bytes.extend_from_slice(&NAME_BYTES.to_le_bytes())?;
    bytes.extend_from_slice(&size.to_le_bytes())?;
    bytes.extend_from_slice(&0_u32.to_le_bytes())?;
    bytes.extend_from_slice(b"ERASEINFO")?;
    bytes.extend_from_slice(&[0; 3])?;
    Ok(bytes)
}

// Puts the note of an erase info after padded notes.
fn push_erased(alloc: Global, bytes: &mut Vec<u8>, text: &[u8]) -> Result<(), AllocError>
    requires { length text.now ≤ 16777216 }
    ensures { OnOk result (bytes.new.items ≡ bytes.old.items ++ (erase_head (length text.now) ++ text.now)) }
{
    let head = erase_head(alloc, text.len() as u32)?;
    bytes.extend_from_slice(&head)?;
    bytes.extend_from_slice(text)?;
    Ok(())
}

/// The notes, and after them that of the erase info, where there is some.
///
/// # Errors
///
/// Out of memory.
#[tactic(auto, unfolding(crate::specs::Erased::joined, crate::specs::Erased::joined_size))]
pub(crate) fn join(alloc: Global, notes: Vec<u8>, text: &[u8]) -> Result<Vec<u8>, AllocError>
    requires { joined_size (vec_len notes) (length text.now) ≤ 16777216 }
    ensures value { IfOk result (λ bytes. bytes.items ≡ joined notes.items text.now) }
    ensures few { IfOk result (λ bytes. vec_len bytes ≤ 16777216) }
{
    if text.is_empty() {
        return Ok(notes);
    }
    let mut bytes = notes;
    pad(&mut bytes)?;
    push_erased(alloc, &mut bytes, text)?;
    pad(&mut bytes)?;
    Ok(bytes)
}
