// The table of the records' places.
ghost use Rattle.std.specs.Prelude.{◌≡◌, ◌+◌, ◌-◌, ◌*◌, ◌^◌, ◌<◌, ◌≤◌, length, map, All, IfOk, slice_range};
ghost use Rattle.std.specs.List.{flat_map};
ghost use Rattle.kc_btf.specs.Records.{places, record_at, IsRecord};
ghost use Rattle.kc_btf.specs.Spelling.{spelled, HasForm};
ghost use Rattle.kc_word.specs.Answers.{GivesTold};
ghost use Rattle.kc_btf.specs.Answers.{told};

use crate::record::record_size;
use crate::stop::BtfStop;
use std::alloc::Global;

/// The places of the records of a section of types, which has fewer bytes than 32 bits count: they are counted
/// from its first byte.
///
/// # Errors
///
/// `Fault` with the first rule that a record breaks, B6 or B7, and where; `NoMemory` where there is none for
/// the table.
pub fn record_places(
    alloc: Global,
    bytes: &[u8],
    types: usize,
    end: usize,
) -> Result<Vec<u32>, BtfStop>
    requires start { types ≤ end }
    requires inside { end ≤ length bytes.now }
    requires short { end - types < 2 ^ 32 }
    ensures exact { GivesTold told (λ table. map (λ place. types + place) table.items) result
        (places (length bytes.now) bytes.now types end) }
    ensures found { IfOk result (λ table. All (λ place. IsRecord bytes.now (types + place)) table.items) }
    // The records, written out again, are the bytes of the section.
    ensures spelled { IfOk result (λ table. flat_map spelled (map (λ place. record_at bytes.now (types + place)) table.items) ≡ slice_range bytes.now types end) }
    ensures form { IfOk result (λ table. All HasForm (map (λ place. record_at bytes.now (types + place)) table.items)) }
    ensures few { IfOk result (λ table. 12 * length table.items ≤ end - types) }
{
    let mut table = Vec::new(alloc);
    let mut at = types;
    while at < end {
        let size = record_size(bytes, at, end)?;
        table.push((at - types) as u32)?;
        at += size;
    }
    Ok(table)
}
