// Notes (gABI, "Note Section"), and the search for VMCOREINFO.
ghost use Rattle.std.specs.Prelude.{◌≡◌, ◌+◌, ◌*◌, ◌/◌, ◌≤◌, length, ◌==◌, ◌<◌, position, IfSome};
ghost use Rattle.kc_notes.specs.Notes.{note_at, note_by, note_end, note_text, is_vmcoreinfo, part_text, text_in};
ghost use Rattle.kc_notes.specs.Steps.{IsInside, IsWithin};
ghost use Rattle.std.specs.Option.{option_copied};
ghost use Rattle.kc_word.specs.Answers.{Gives};
ghost use Rattle.std.specs.List.{before_first};

use crate::fault::NoteFault;
use byteorder::{ByteOrder, LittleEndian};
use kc_elf::Core;

/// A note: its type, and where its name and its descriptor stand in its part, in bytes.
#[derive(Clone, Copy, Debug, PartialEq, Eq)]
pub struct Note {
    pub kind: u32,
    pub name: usize,
    pub name_size: usize,
    pub descriptor: usize,
    pub descriptor_size: usize,
}

/// What stands at a place of a part.
#[derive(Clone, Copy, Debug, PartialEq, Eq)]
pub enum Step {
    /// No note: the part ends.
    End,
    /// A note whose name or descriptor passes the end of the part.
    Broken,
    /// A whole note.
    Whole(Note),
}

/// How many bytes a note's header has: the sizes of the name and of the descriptor, and the type.
const HEADER_BYTES: usize = 12;

/// What stands at a place of a part.
pub fn read_note(bytes: &[u8], place: usize) -> Step
    requires { place ≤ length bytes.now }
    ensures value { result ≡ note_at bytes.now place }
    ensures within { IsWithin (length bytes.now) place result }
{
    if bytes.len() - place < HEADER_BYTES {
        return Step::End;
    }
    let name_size = LittleEndian::read_u32(&bytes[place..]);
    let descriptor_size = LittleEndian::read_u32(&bytes[place + 4..]);
    let kind = LittleEndian::read_u32(&bytes[place + 8..]);
    step_by(
        bytes.len(),
        place,
        name_size as usize,
        descriptor_size as usize,
        kind,
    )
}

// What a note's header says.
#[tactic(auto, unfolding(crate::specs::Notes::note_by))]
fn step_by(size: usize, place: usize, name_size: usize, descriptor_size: usize, kind: u32) -> Step
    requires whole { place + 12 ≤ size }
    requires descriptor { descriptor_size ≤ 4294967295 }
    ensures value { result ≡ note_by size place name_size descriptor_size kind }
    ensures within { IsWithin size place result }
{
    if name_size == 0 && descriptor_size == 0 && kind == 0 {
        return Step::End;
    }
    let name = place + HEADER_BYTES;
    if size - name < name_size {
        return Step::Broken;
    }
    let left = size - name - name_size;
    let padding = padding_of(name_size);
    if descriptor_size != 0 && left < padding + descriptor_size {
        return Step::Broken;
    }
    Step::Whole(Note {
        kind,
        name,
        name_size,
        descriptor: name + name_size + padding.min(left),
        descriptor_size,
    })
}

// How many bytes bring a count to a multiple of 4.
fn padding_of(count: usize) -> usize
    ensures value { count + result ≡ (count + 3) / 4 * 4 }
    ensures few { result ≤ 3 }
{
    (4 - count % 4) % 4
}

/// The place behind a note and its padding, in a part of this size.
pub fn note_end(size: usize, note: &Note) -> usize
    requires { IsInside size note.now }
    ensures { result ≡ note_end size note.now }
{
    let Note {
        descriptor,
        descriptor_size,
        ..
    } = *note;
    let behind = descriptor + descriptor_size;
    behind + padding_of(descriptor_size).min(size - behind)
}

/// Whether a note is the kernel's VMCOREINFO.
pub fn is_vmcoreinfo(bytes: &[u8], note: &Note) -> bool
    requires { IsInside (length bytes.now) note.now }
    ensures { result ≡ is_vmcoreinfo bytes.now note.now }
{
    let name = &bytes[note.name..note.name + note.name_size];
    note.kind == 0 && name == b"VMCOREINFO\0".as_slice()
}

/// A note's text: its descriptor up to the first NUL.
pub fn note_text<'t>(bytes: &'t [u8], note: &Note) -> &'t [u8]
    requires { IsInside (length bytes.now) note.now }
    ensures { result.now ≡ note_text bytes.now note.now }
{
    before_nul(&bytes[note.descriptor..note.descriptor + note.descriptor_size])
}

// The text of the first VMCOREINFO in a part, or the place of a broken note before it.
fn text_in_part(bytes: &[u8]) -> Result<Option<&[u8]>, usize>
    ensures { Gives option_copied result (part_text bytes.now) }
{
    let mut place = 0;
    loop {
        match read_note(bytes, place) {
            Step::End => return Ok(None),
            Step::Broken => return Err(place),
            Step::Whole(note) => {
                if is_vmcoreinfo(bytes, &note) {
                    return Ok(Some(note_text(bytes, &note)));
                }
                place = note_end(bytes.len(), &note);
            }
        }
    }
}

/// The text of the kernel's VMCOREINFO note: its descriptor up to the first NUL. It is the first such note
/// in the order of the parts, and nothing behind it is looked at.
///
/// The note has the name `VMCOREINFO` and the type 0 (the kernel's kdump documents, "VMCOREINFO").
///
/// # Errors
///
/// `V1` where a note before it passes the end of its part, and `V2` where there is none.
pub fn vmcoreinfo(core: &Core) -> Result<&[u8], NoteFault>
    ensures { Gives (λ text. text.now) result (text_in core.now.notes) }
{
    for index in 0..core.notes() {
        match text_in_part(core.note(index)) {
            Ok(Some(text)) => return Ok(text),
            Ok(None) => {}
            Err(place) => {
                return Err(NoteFault::V1 {
                    part: index as u32,
                    at: place as u64,
                });
            }
        }
    }
    Err(NoteFault::V2)
}

// The place of the first byte that is the wanted one.
pub(crate) fn place_of(bytes: &[u8], wanted: u8) -> Option<usize>
    ensures value { result ≡ position (λ c. c == wanted) bytes.now }
    ensures within { IfSome result (λ place. place < length bytes.now) }
{
    bytes.iter().position(|c| *c == wanted)
}

// The bytes up to the first NUL.
#[tactic(auto, using(crate::proofs::PlaceLemmas::before_place, crate::proofs::PlaceLemmas::before_none))]
fn before_nul(bytes: &[u8]) -> &[u8]
    ensures { result.now ≡ before_first (λ c. c == 0) bytes.now }
{
    match place_of(bytes, 0) {
        Some(end) => &bytes[..end],
        None => bytes,
    }
}
