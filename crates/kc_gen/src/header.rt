// The dump: an ELF core file of the made memory.
ghost use Rattle.std.specs.Prelude.{◌≡◌, ◌++◌, IfOk, OnOk};
ghost use Rattle.kc_gen.specs.Bytes.{laid};
ghost use Rattle.kc_gen.specs.Texts.{note};
ghost use Rattle.kc_gen.specs.Header.{core_file, elf_header, header, note_sizes, program_headers, with_note};

use crate::bytes::{Field, lay, pad};
use crate::texts::NOTE;
use kc_word::NoMemory;
use std::alloc::Global;

// The ELF header.
const ELF_HEADER: [Field; 7] = [
    Field {
        at: 0,
        width: 4,
        value: 0x464c_457f,
    },
    Field {
        at: 4,
        width: 4,
        value: 0x01_0102,
    },
    Field {
        at: 16,
        width: 2,
        value: 4,
    },
    Field {
        at: 18,
        width: 2,
        value: 62,
    },
    Field {
        at: 32,
        width: 8,
        value: 64,
    },
    Field {
        at: 54,
        width: 2,
        value: 56,
    },
    Field {
        at: 56,
        width: 2,
        value: 2,
    },
];

// The program headers, but for the size of the memory.
const PROGRAM_HEADERS: [Field; 5] = [
    Field {
        at: 64,
        width: 4,
        value: 4,
    },
    Field {
        at: 72,
        width: 8,
        value: 0x1000,
    },
    Field {
        at: 96,
        width: 8,
        value: 160,
    },
    Field {
        at: 120,
        width: 4,
        value: 1,
    },
    Field {
        at: 128,
        width: 8,
        value: 0x2000,
    },
];

// The sizes of the note's name and text.
const NOTE_SIZES: [Field; 2] = [
    Field {
        at: 0x1000,
        width: 4,
        value: 11,
    },
    Field {
        at: 0x1004,
        width: 4,
        value: 135,
    },
];

#[tactic(auto, unfolding(crate::specs::Header::elf_header))]
fn lay_elf_header(bytes: &mut Vec<u8>) -> Result<(), NoMemory>
    ensures { OnOk result (bytes.new.items ≡ laid elf_header bytes.old.items) }
{
    lay(bytes, &ELF_HEADER)
}

fn lay_program_headers(bytes: &mut Vec<u8>, size: u64) -> Result<(), NoMemory>
    ensures { OnOk result (bytes.new.items ≡ laid (program_headers size) bytes.old.items) }
{
    lay(bytes, &PROGRAM_HEADERS)?;
    lay(
        bytes,
        &[
            Field {
                at: 152,
                width: 8,
                value: size,
            },
            Field {
                at: 160,
                width: 8,
                value: size,
            },
        ],
    )
}

#[tactic(auto, unfolding(crate::specs::Header::note_sizes))]
fn lay_note_sizes(bytes: &mut Vec<u8>) -> Result<(), NoMemory>
    ensures { OnOk result (bytes.new.items ≡ laid note_sizes bytes.old.items) }
{
    lay(bytes, &NOTE_SIZES)
}

#[tactic(auto, unfolding(crate::specs::Texts::note))]
fn push_note(bytes: &mut Vec<u8>) -> Result<(), NoMemory>
    ensures { OnOk result (bytes.new.items ≡ bytes.old.items ++ note) }
{
    bytes.extend_from_slice(NOTE)?;
    Ok(())
}

fn lay_note(bytes: &mut Vec<u8>) -> Result<(), NoMemory>
    ensures { OnOk result (bytes.new.items ≡ with_note bytes.old.items) }
{
    lay_note_sizes(bytes)?;
    pad(bytes, 0x100c)?;
    bytes.extend_from_slice(b"VMCOREINFO")?;
    pad(bytes, 0x1018)?;
    push_note(bytes)?;
    Ok(())
}

// What comes before a memory of so many bytes.
fn header(alloc: Global, size: u64) -> Result<Vec<u8>, NoMemory>
    ensures { IfOk result (λ bytes. bytes.items ≡ header size) }
{
    let mut bytes = Vec::new(alloc);
    lay_elf_header(&mut bytes)?;
    lay_program_headers(&mut bytes, size)?;
    lay_note(&mut bytes)?;
    pad(&mut bytes, 0x2000)?;
    Ok(bytes)
}

// The core file of a memory.
pub(crate) fn core_file(alloc: Global, memory: &[u8]) -> Result<Vec<u8>, NoMemory>
    ensures { IfOk result (λ bytes. bytes.items ≡ core_file memory.now) }
{
    let mut bytes = header(alloc, memory.len() as u64)?;
    bytes.extend_from_slice(memory)?;
    Ok(bytes)
}
