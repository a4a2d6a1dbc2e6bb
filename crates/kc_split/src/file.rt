// A file made of the sections of two.
ghost use Rattle.std.specs.Prelude.{◌≡◌, ◌+◌, ◌<◌, ◌^◌, ◌++◌, length, OnOk, Result, Ok, Err, ◌||◌, if◌then◌else◌};
ghost use Rattle.kc_word.specs.Answers.{GivesTold};
ghost use Rattle.kc_split.specs.Join.{is_too_long, told};
ghost use Rattle.kc_split.specs.File.{header_bytes, file_of};
ghost use Rattle.kc_split.specs.declared.stop.SplitStop.TheVariants.{TooLong};

use crate::stop::SplitStop;
use byteorder::{ByteOrder, LittleEndian};
use std::alloc::Global;

/// The bytes of a header.
const HEADER: usize = 24;

// The length of two sections together, as 32 bits count it.
pub(crate) fn total(first: usize, second: usize) -> Result<u32, SplitStop>
    ensures { GivesTold told (λ n. n) result (if is_too_long first second then Err TooLong else Ok (first + second)) }
{
    match first.checked_add(second) {
        Some(both) if both <= u32::MAX as usize => Ok(both as u32),
        _ => Err(SplitStop::TooLong),
    }
}

// A header for sections of these lengths.
fn header(types: u32, strings: u32) -> [u8; HEADER]
    ensures { result ≡ header_bytes types strings }
{
    let mut bytes = [0; HEADER];
    LittleEndian::write_u32_into(&[0x1eb9f, 24, 0, types, types, strings], &mut bytes);
    bytes
}

// The sections of one file and then of another, as one file.
pub(crate) fn joined_file(
    alloc: Global,
    types: &[u8],
    more_types: &[u8],
    strings: &[u8],
    more_strings: &[u8],
) -> Result<Vec<u8>, SplitStop>
    ensures { GivesTold told (λ file. file.items) result
        (if is_too_long (length types.now) (length more_types.now) || is_too_long (length strings.now) (length more_strings.now)
        then Err TooLong else Ok (file_of (types.now ++ more_types.now) (strings.now ++ more_strings.now))) }
{
    let types_length = total(types.len(), more_types.len())?;
    let strings_length = total(strings.len(), more_strings.len())?;
    let length = HEADER + types_length as usize + strings_length as usize;
    let mut file = Vec::with_capacity(alloc, length)?;
    file.extend_from_slice(&header(types_length, strings_length))?;
    file.extend_from_slice(types)?;
    file.extend_from_slice(more_types)?;
    file.extend_from_slice(strings)?;
    file.extend_from_slice(more_strings)?;
    Ok(file)
}
