// Bytes, numbers and tokens of the tables.
ghost use Rattle.std.specs.Prelude.{◌≡◌, ◌≤◌, ◌^◌, OnOk};
ghost use Rattle.kc_bytes.specs.Bytes.{IsKept, onward};
ghost use Rattle.kc_memory.specs.Stays.{SpaceStays};
ghost use Rattle.kc_kallsyms.specs.Bytes.{byte_at, bytes_at, eight_at, four_at, string_at, two_at};
ghost use Rattle.kc_kallsyms.specs.Reading.{CountsReadFaults, ReadsAs};

use crate::fault::TableFault;
use crate::stop::TableStop;
use kc_bytes::Cursor;
use kc_memory::Space;
use kc_word::Steps;
use std::alloc::Global;
use std::sync::ledger::Ledger;

// The next byte. The place is then one byte on.
pub(crate) fn next<S: Space, L: Ledger>(
    cursor: &mut Cursor,
    space: &mut S,
    steps: &mut Steps<L>,
) -> Result<u8, TableStop>
    requires { IsKept (S.image space.old) cursor.old.word }
    ensures byte { ReadsAs (λ n. n) (λ image. byte_at image cursor.old.at) (S.image space.old) result }
    ensures at { OnOk result (cursor.new.at ≡ onward cursor.old.at 1) }
    ensures kept { IsKept (S.image space.new) cursor.new.word }
    ensures stays { SpaceStays S.image S.files S.through S.most space.old space.new }
    ensures cause { CountsReadFaults result (S.faults space.old) (S.faults space.new) }
{
    Ok(cursor.next(space, steps)?)
}

// The number of the next two bytes, the lower first.
pub(crate) fn next_two<S: Space, L: Ledger>(
    cursor: &mut Cursor,
    space: &mut S,
    steps: &mut Steps<L>,
) -> Result<u16, TableStop>
    requires { IsKept (S.image space.old) cursor.old.word }
    ensures number { ReadsAs (λ n. n) (λ image. two_at image cursor.old.at) (S.image space.old) result }
    ensures at { OnOk result (cursor.new.at ≡ onward cursor.old.at 2) }
    ensures kept { IsKept (S.image space.new) cursor.new.word }
    ensures stays { SpaceStays S.image S.files S.through S.most space.old space.new }
    ensures cause { CountsReadFaults result (S.faults space.old) (S.faults space.new) }
{
    Ok(cursor.next_two(space, steps)?)
}

// The number of the next four bytes, the lowest first.
pub(crate) fn next_four<S: Space, L: Ledger>(
    cursor: &mut Cursor,
    space: &mut S,
    steps: &mut Steps<L>,
) -> Result<u32, TableStop>
    requires { IsKept (S.image space.old) cursor.old.word }
    ensures number { ReadsAs (λ n. n) (λ image. four_at image cursor.old.at) (S.image space.old) result }
    ensures at { OnOk result (cursor.new.at ≡ onward cursor.old.at 4) }
    ensures kept { IsKept (S.image space.new) cursor.new.word }
    ensures stays { SpaceStays S.image S.files S.through S.most space.old space.new }
    ensures cause { CountsReadFaults result (S.faults space.old) (S.faults space.new) }
{
    Ok(cursor.next_four(space, steps)?)
}

// The number of the eight bytes from an address on, the lowest first.
pub(crate) fn read_eight<S: Space, L: Ledger>(
    space: &mut S,
    at: u64,
    steps: &mut Steps<L>,
) -> Result<u64, TableStop>
    ensures number { ReadsAs (λ n. n) (λ image. eight_at image at) (S.image space.old) result }
    ensures stays { SpaceStays S.image S.files S.through S.most space.old space.new }
    ensures cause { CountsReadFaults result (S.faults space.old) (S.faults space.new) }
{
    Ok(kc_bytes::read_eight(space, at, steps)?)
}

// So many bytes from an address on.
pub(crate) fn read_bytes<S: Space, L: Ledger>(
    alloc: Global,
    space: &mut S,
    at: u64,
    count: u64,
    steps: &mut Steps<L>,
) -> Result<Vec<u8>, TableStop>
    ensures bytes { ReadsAs (λ v. v.items) (λ image. bytes_at image count at) (S.image space.old) result }
    ensures stays { SpaceStays S.image S.files S.through S.most space.old space.new }
    ensures cause { CountsReadFaults result (S.faults space.old) (S.faults space.new) }
{
    Ok(kc_bytes::read_bytes(alloc, space, at, count as usize, steps)?)
}

// How many bytes a token has at most, with its NUL.
const TOKEN_BYTES: u16 = 512;

// The token with this number, which begins at an address.
pub(crate) fn read_string<S: Space, L: Ledger>(
    alloc: Global,
    space: &mut S,
    number: u16,
    at: u64,
    steps: &mut Steps<L>,
) -> Result<Vec<u8>, TableStop>
    ensures token { ReadsAs (λ v. v.items) (λ image. string_at image number 512 at) (S.image space.old) result }
    ensures stays { SpaceStays S.image S.files S.through S.most space.old space.new }
    ensures cause { CountsReadFaults result (S.faults space.old) (S.faults space.new) }
{
    let mut token = Vec::new(alloc);
    let mut cursor = Cursor::new(at);
    for i in 0..TOKEN_BYTES {
        let byte = next(&mut cursor, space, steps)?;
        if byte == 0 {
            return Ok(token);
        }
        token.push(byte)?;
    }
    Err(TableStop::Table(TableFault::S6(number)))
}
