// Numbers one after another.
ghost use Rattle.std.specs.Prelude.{◌≡◌, ◌++◌, OnOk};
ghost use Rattle.kc_plain.specs.Fields.{field_bytes, spelled};

use kc_word::NoMemory;

// A number of 2, 4 or 8 bytes.
#[derive(Clone, Copy)]
pub(crate) enum Field {
    U16(u16),
    U32(u32),
    U64(u64),
}

// Puts the bytes of a number after others.
fn push_field(bytes: &mut Vec<u8>, field: Field) -> Result<(), NoMemory>
    ensures { OnOk result (bytes.new.items ≡ bytes.old.items ++ field_bytes field) }
{
    match field {
        Field::U16(value) => bytes.extend_from_slice(&value.to_le_bytes())?,
        Field::U32(value) => bytes.extend_from_slice(&value.to_le_bytes())?,
        Field::U64(value) => bytes.extend_from_slice(&value.to_le_bytes())?,
    }
    Ok(())
}

// Puts the bytes of numbers after others.
pub(crate) fn push_fields(bytes: &mut Vec<u8>, fields: &[Field]) -> Result<(), NoMemory>
    ensures { OnOk result (bytes.new.items ≡ bytes.old.items ++ spelled fields.now) }
{
    for field in fields {
        push_field(bytes, *field)?;
    }
    Ok(())
}
