// The core file of the made dump.
ghost use Rattle.std.specs.Prelude.{◌<◌};

use crate::bytes::set_bytes;
use byteorder::{ByteOrder, LittleEndian};
use std::alloc::{AllocError, Global};

/// The text of its VMCOREINFO note.
pub const NOTE: &[u8] =
    b"PAGESIZE=4096\nNUMBER(phys_base)=0\nSYMBOL(init_top_pgt)=ffffffff80001000\nNUMBER(pgtable_l5_enabled)=0\nKERNELOFFSET=0\nNUMBER(sme_mask)=0\n";

// Where physical memory begins in the file.
const MEMORY: u64 = 0x2000;

const SIZE: usize = 0x22000;

const PART: usize = 0x1000;

// The kinds of program headers.
const PT_LOAD: u64 = 1;

const PT_NOTE: u64 = 4;

// The kernel's image and the direct map: both lead to the physical address that is added.
const I: u64 = 0xffff_ffff_8000_0000;

const D: u64 = 0xffff_8880_0000_0000;

/// The core file, whose notes hold `NOTE`.
pub fn core_file(alloc: Global) -> Result<Vec<u8>, AllocError> {
    core_with_note(alloc, NOTE)
}

/// The core file whose notes hold this text.
pub fn core_with_note(alloc: Global, text: &[u8]) -> Result<Vec<u8>, AllocError> {
    let mut file = vec![in alloc; 0; SIZE]?;
    put_header(&mut file, text.len());
    put_note(&mut file, text);
    for (pa, word) in TABLES {
        set_word(&mut file, pa, word);
    }
    for i in 0..32 {
        set_word(&mut file, 0x4000 + 8 * i, 0x1000 * i + 3);
    }
    for (pa, word) in LISTS {
        set_word(&mut file, pa, word);
    }
    for (pa, word) in STRUCTURES {
        set_word(&mut file, pa, word);
    }
    Ok(file)
}

/// Puts a word at a physical address, if the file has it.
pub fn set_word(file: &mut Vec<u8>, pa: u64, word: u64) {
    let mut bytes = [0; 8];
    LittleEndian::write_u64(&mut bytes, word);
    if pa < SIZE as u64 {
        set_bytes(file, (MEMORY + pa) as usize, &bytes);
    }
}

fn put_number(file: &mut Vec<u8>, offset: usize, number: u64, width: usize) {
    let mut bytes = [0; 8];
    LittleEndian::write_u64(&mut bytes, number);
    if width <= 8 {
        set_bytes(file, offset, &bytes[..width]);
    }
}

// The ELF header and the three program headers, for a note whose text has this length.
fn put_header(file: &mut Vec<u8>, length: usize) {
    set_bytes(file, 0, b"\x7fELF\x02\x01\x01");
    for (offset, number, width) in [
        (16, 4, 2),
        (18, 62, 2),
        (32, 64, 8),
        (54, 56, 2),
        (56, 3, 2),
    ] {
        put_number(file, offset, number, width);
    }
    let padded = (length as u64).saturating_add(27) / 4 * 4;
    put_program_header(file, 64, PT_NOTE, 0x1000, 0, padded);
    put_program_header(file, 120, PT_LOAD, 0x2000, 0, 0x10000);
    put_program_header(file, 176, PT_LOAD, 0x12000, 0x10000, 0x10000);
}

// Notes are in the file alone, so their size in memory is 0.
fn put_program_header(
    file: &mut Vec<u8>,
    place: usize,
    kind: u64,
    offset: u64,
    paddr: u64,
    size: u64,
)
    requires { place < 4096 }
{
    let memory = if kind == PT_LOAD { size } else { 0 };
    for (field, number, width) in [
        (0, kind, 4),
        (8, offset, 8),
        (24, paddr, 8),
        (32, size, 8),
        (40, memory, 8),
    ] {
        put_number(file, place + field, number, width);
    }
}

// The note, with the sizes that its text has.
fn put_note(file: &mut Vec<u8>, text: &[u8]) {
    put_number(file, PART, 11, 4);
    put_number(file, PART + 4, text.len() as u64, 4);
    set_bytes(file, PART + 12, b"VMCOREINFO\0");
    set_bytes(file, PART + 24, text);
}

// Page tables: the kernel's image by 4 KiB pages, the direct map by one of 2 MiB, one page of vmemmap.
const TABLES: [(u64, u64); 11] = [
    (0x1ff8, 0x2003),
    (0x2ff0, 0x3003),
    (0x3000, 0x4003),
    (0x1ea0, 0x5003),
    (0x5000, 0x6003),
    (0x6000, 0x7003),
    (0x7000, 0x8003),
    (0x1888, 0x9003),
    (0x9000, 0xa003),
    (0xa000, 0x83),
    (0xc000, 0x57ac_6e9d),
];

// The kernel's lists: the task list, the caches, the ring, the trees' roots.
const LISTS: [(u64, u64); 42] = [
    (0xb008, D + 0xd008),
    (0xb010, D + 0xd008),
    (0xb020, I + 0xb000),
    (0xb028, D + 0xd038),
    (0xb030, D + 0xd038),
    (0xb038, I + 0xb038),
    (0xb040, I + 0xb038),
    (0xb048, I + 0xb000),
    (0xb050, I + 0xb080),
    (0xb058, I + 0xb080),
    (0xb060, I + 0xb080),
    (0xb080, I + 0xb058),
    (0xb088, I + 0xb058),
    (0xb100, D + 0xe018),
    (0xb108, D + 0xe018),
    (0xb118, D + 0x10002),
    (0xb120, D + 0x11000),
    (0xb128, D + 0x11080),
    (0xb130, D + 0x11068),
    (0xb138, D + 0x11028),
    (0xb140, D + 0x11010),
    (0xd000, D + 0xc000),
    (0xd008, I + 0xb008),
    (0xd010, I + 0xb008),
    (0xd018, 0x1_0000_0001),
    (0xd020, I + 0xb000),
    (0xd028, D + 0xd028),
    (0xd030, D + 0xd028),
    (0xd038, I + 0xb028),
    (0xd040, I + 0xb028),
    (0xd048, D + 0xd000),
    (0xd050, D + 0xd080),
    (0xd058, D + 0xd158),
    (0xd060, D + 0xd080),
    (0xd080, D + 0xd058),
    (0xd088, D + 0xd158),
    (0xd118, 0x1_0000_0002),
    (0xd120, I + 0xb000),
    (0xd128, D + 0xd128),
    (0xd130, D + 0xd128),
    (0xd148, D + 0xd000),
    (0xd150, D + 0xd080),
];

// A slab with three free objects, an xarray, and the three items of the ring and of the tree.
const STRUCTURES: [(u64, u64); 38] = [
    (0xd158, D + 0xd080),
    (0xd160, D + 0xd058),
    (0xe000, 0x40_0000_0040),
    (0xe008, 0x20),
    (0xe010, 0x1122_3344_5566_7788),
    (0xe018, I + 0xb100),
    (0xe020, I + 0xb100),
    (0xe028, D + 0xe040),
    (0xe048, 1),
    (0xe050, 0xffff_ea00_0000_03d0),
    (0xe058, 0xffff_ea00_0000_03d0),
    (0x83c8, D + 0xe000),
    (0x83d0, D + 0xe050),
    (0x83d8, D + 0xe050),
    (0x83e0, D + 0xf040),
    (0x83e8, 0x80005),
    (0xf060, 0x8e2d_bbc4_d5ee_78b7),
    (0xf0e0, 0x0e2d_bbc4_d5ee_7937),
    (0xf160, 0x71d3_3344_d5ee_8877),
    (0x10000, 0x102_0000),
    (0x10010, I + 0xb110),
    (0x10020, D + 0x11000),
    (0x10028, 0xb),
    (0x11000, D + 0x11040),
    (0x11008, I + 0xb120),
    (0x11018, I + 0xb140),
    (0x11020, 0x7_0000_0007),
    (0x11028, D + 0x11068),
    (0x11040, D + 0x11080),
    (0x11048, D + 0x11000),
    (0x11060, 9),
    (0x11068, 1),
    (0x11070, D + 0x110a8),
    (0x11078, D + 0x11028),
    (0x11080, I + 0xb120),
    (0x11088, D + 0x11040),
    (0x110a0, 12),
    (0x110a8, D + 0x11068),
];
