// What is read of a core file.
ghost use Rattle.std.specs.Prelude.{◌≡◌, ◌<◌, ◌^◌, length, map, vec_len, Some, slice_get};

use kc_word::Segment;
use std::marker::Model;

/// What a core file holds: its segments of memory, and its notes.
#[derive(Drop)]
pub struct Core {
    segments: Vec<Segment>,
    notes: Vec<Vec<u8>>,
}

impl Model for Core {
    ghost use Rattle.std.specs.Prelude.{map, ◌<◌, ◌^◌, vec_len};
    ghost use Rattle.std.specs.Global.{Vec};
    ghost use Rattle.kc_elf.specs.Parts.{Parts};

    ghost Value = { Parts };

    ghost view = { λ c. record { segments = c.segments.items; notes = map (λ v. v.items) c.notes.items } };

    ghost invariant = { λ c. vec_len c.notes < 2 ^ 32 };
}

impl Core {
    // The segments and the parts of notes.
    pub(crate) fn new(segments: Vec<Segment>, notes: Vec<Vec<u8>>) -> Self
        requires { vec_len notes < 2 ^ 32 }
        ensures segments { result.segments ≡ segments.items }
        ensures notes { result.notes ≡ map (λ v. v.items) notes.items }
    {
        Core { segments, notes }
    }

    /// The segments, one for each PT_LOAD, in the order of the program headers.
    pub fn segments(&self) -> &[Segment]
        ensures { result.now ≡ self.now.segments }
    {
        &self.segments
    }

    /// How many parts of notes there are, one for each PT_NOTE.
    pub fn notes(&self) -> usize
        ensures count { result ≡ length self.now.notes }
        ensures few { result < 2 ^ 32 }
    {
        self.notes.len()
    }

    /// The bytes of a part of notes, counted from 0 in the order of the program headers.
    pub fn note(&self, i: usize) -> &[u8]
        requires { i < length self.now.notes }
        ensures { slice_get self.now.notes i ≡ Some result.now }
    {
        &self.notes[i]
    }
}
