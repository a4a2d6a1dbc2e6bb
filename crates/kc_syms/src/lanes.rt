// The bytes of names, 16 at a time.
ghost use Rattle.std.specs.Prelude.{◌≡◌, ◌==◌, ◌+◌, ◌≤◌, true, take, drop, length, if◌then◌else◌};
ghost use Rattle.std.specs.Int.{trailing_zeros, w64};
ghost use Rattle.std.specs.List.{list_all};
ghost use Rattle.kc_syms.specs.Rows.{is_name_byte};

use std::simd::prelude::*;

const LANES: usize = 16;

// How many bytes in front are ones of a name; fewer, where the end is near.
pub fn name_run(text: &[u8]) -> usize
    ensures within { result ≤ length text.now }
    ensures names { list_all is_name_byte (take result text.now) ≡ true }
{
    let mut seen = 0;
    while text.len() - seen >= LANES {
        let run = run_at(text, seen);
        seen += run;
        if run < LANES {
            return seen;
        }
    }
    seen
}

// The same of the 16 bytes from a place on.
fn run_at(text: &[u8], at: usize) -> usize
    requires { at + LANES ≤ length text.now }
    ensures within { result ≤ LANES }
    ensures names { list_all is_name_byte (take result (drop at text.now)) ≡ true }
{
    let bytes = u8x16::from_slice(&text[at..]);
    let stops = bytes.simd_lt(u8x16::splat(b'!')) | bytes.simd_gt(u8x16::splat(b'~'));
    first_stop(stops.to_bitmask())
}

// The lowest place of a mask, or 16 where it has none.
fn first_stop(mask: u64) -> usize
    ensures { result ≡ (if mask == 0 then 16 else trailing_zeros w64 mask) }
{
    if mask == 0 {
        LANES
    } else {
        mask.trailing_zeros() as usize
    }
}
