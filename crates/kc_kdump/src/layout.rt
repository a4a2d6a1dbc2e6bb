// Where the parts of a dump are.
ghost use Rattle.std.specs.Prelude.{◌≡◌, ◌≤◌, nat_le, ◌+◌, ◌*◌, ◌/◌, ◌^◌, ◌<◌, ◌%◌, length, IfOk};
ghost use Rattle.kc_kdump.specs.Erased.{joined_size};
ghost use Rattle.kc_kdump.specs.Header.{bitmap_blocks, bitmaps_in, erase_offset_in, erase_size_in, frames_in, half_in, has_bitmaps, has_notes, header_fault, is_small, is_cut_in, is_kdump, is_new, is_old, layout_by, layout_in, note_offset_in, note_size_in, placed, since, table_in, version_of};
ghost use Rattle.kc_kdump.specs.Bytes.{number};

use crate::erased::joined_size;
use crate::fault::KdumpFault;
use byteorder::{ByteOrder, LittleEndian};

/// Where the parts of a dump are in the file, in bytes.
#[derive(Clone, Copy)]
pub struct Layout {
    /// How many page frames the bitmaps speak of.
    pub frames: u64,
    /// The file offset of the first bitmap.
    pub bitmaps: u64,
    /// How many bytes each bitmap has.
    pub half: u64,
    /// The file offset of the notes.
    pub note_offset: u64,
    /// How many bytes the notes have.
    pub note_size: u64,
    /// The file offset of the erase info: what makedumpfile erased, as a text.
    pub erase_offset: u64,
    /// How many bytes the erase info has: 0 where there is none.
    pub erase_size: u64,
    /// Whether the header says that the dump is incomplete.
    pub is_cut: bool,
}

/// How many bytes of the header are looked at.
pub const HEADER_BYTES: usize = 464;

/// How many bytes of the sub header are looked at.
pub const SUB_HEADER_BYTES: usize = 104;

/// Blocks and pages have so many bytes.
pub const BLOCK_BYTES: u64 = 4096;

/// How many bytes of a file say what it is.
pub const SIGNATURE_BYTES: usize = 8;

const MOST_NOTE_BYTES: u64 = 16 * 1024 * 1024;

/// Whether a file that begins with these bytes is a compressed dump, of this format or the older one.
pub fn is_kdump(bytes: &[u8]) -> bool
    requires { 8 ≤ length bytes.now }
    ensures { result ≡ is_kdump bytes.now }
{
    is_new(bytes) || is_old(bytes)
}

fn is_new(bytes: &[u8]) -> bool
    requires { 8 ≤ length bytes.now }
    ensures { result ≡ is_new bytes.now }
{
    &bytes[..SIGNATURE_BYTES] == b"KDUMP   ".as_slice()
}

fn is_old(bytes: &[u8]) -> bool
    requires { 8 ≤ length bytes.now }
    ensures { result ≡ is_old bytes.now }
{
    &bytes[..SIGNATURE_BYTES] == b"DISKDUMP".as_slice()
}

impl Layout {
    /// The file offset of the first page descriptor.
    pub fn table(&self) -> u64
        requires { table_in self.now < 2 ^ 64 }
        ensures { result ≡ table_in self.now }
    {
        self.bitmaps + 2 * self.half
    }

    // The layout by the two headers.
    fn by(header: &[u8], sub: &[u8]) -> Self
        requires header { length header.now ≡ 464 }
        requires sub { length sub.now ≡ 104 }
        ensures value { result ≡ layout_by header.now sub.now }
        ensures bitmaps { result.bitmaps ≤ 2 ^ 45 }
        ensures half { result.half ≤ 2 ^ 44 }
        ensures blocks { result.half % 4096 ≡ 0 }
    {
        Layout {
            frames: frames_in(header, sub),
            bitmaps: bitmaps_in(header),
            half: half_in(header),
            note_offset: note_offset_in(header, sub),
            note_size: note_size_in(header, sub),
            erase_offset: erase_offset_in(header, sub),
            erase_size: erase_size_in(header, sub),
            is_cut: is_cut_in(header),
        }
    }

    // Whether the bitmaps are inside a file of this size, and have a bit for each page frame.
    fn has_bitmaps(&self, size: u64) -> bool
        requires bitmaps { self.now.bitmaps ≤ 2 ^ 45 }
        requires half { self.now.half ≤ 2 ^ 44 }
        ensures { result ≡ has_bitmaps size self.now }
    {
        self.frames <= 8 * self.half && self.table() <= size
    }

    // Whether the notes and the erase info are inside a file of this size, and few enough.
    fn has_notes(&self, size: u64) -> bool
        ensures { result ≡ has_notes size self.now }
    {
        is_inside(self.note_offset, self.note_size, size)
            && is_inside(self.erase_offset, self.erase_size, size)
            && is_small(self.note_size, self.erase_size)
    }
}

// Whether so many bytes from an offset on are inside a file of this size.
fn is_inside(offset: u64, count: u64, size: u64) -> bool
    ensures { result ≡ nat_le (offset + count) size }
{
    offset <= size && count <= size - offset
}

// Whether notes and erase info of these sizes have at most 16 MiB together, as notes.
fn is_small(notes: u64, erased: u64) -> bool
    ensures { result ≡ is_small notes erased }
{
    notes <= MOST_NOTE_BYTES
        && erased <= MOST_NOTE_BYTES
        && joined_size(notes, erased) <= MOST_NOTE_BYTES
}

// How many blocks both bitmaps have.
fn bitmap_blocks(header: &[u8]) -> u32
    requires { length header.now ≡ 464 }
    ensures { result ≡ bitmap_blocks header.now }
{
    LittleEndian::read_u32(&header[436..])
}

// The file offset of the first bitmap.
#[tactic(auto, unfolding(crate::specs::Header::bitmaps_in))]
fn bitmaps_in(header: &[u8]) -> u64
    requires { length header.now ≡ 464 }
    ensures value { result ≡ bitmaps_in header.now }
    ensures small { result ≤ 2 ^ 45 }
{
    let blocks = LittleEndian::read_u32(&header[432..]);
    BLOCK_BYTES * (1 + u64::from(blocks))
}

// How many bytes each bitmap has.
#[tactic(auto, unfolding(crate::specs::Header::half_in))]
fn half_in(header: &[u8]) -> u64
    requires { length header.now ≡ 464 }
    ensures value { result ≡ half_in header.now }
    ensures small { result ≤ 2 ^ 44 }
    ensures blocks { result % 4096 ≡ 0 }
{
    let blocks = bitmap_blocks(header);
    BLOCK_BYTES * u64::from(blocks / 2)
}

// The format's version.
fn version(header: &[u8]) -> u32
    requires { length header.now ≡ 464 }
    ensures { result ≡ version_of header.now }
{
    LittleEndian::read_u32(&header[8..])
}

// A field of the sub header, which is there from a version on.
fn since(least: u32, header: &[u8], field: u64) -> u64
    requires { length header.now ≡ 464 }
    ensures { result ≡ since least header.now field }
{
    if version(header) >= least { field } else { 0 }
}

// The file offset of the notes.
#[tactic(auto, unfolding(crate::specs::Header::note_offset_in))]
fn note_offset_in(header: &[u8], sub: &[u8]) -> u64
    requires header { length header.now ≡ 464 }
    requires sub { length sub.now ≡ 104 }
    ensures { result ≡ note_offset_in header.now sub.now }
{
    since(4, header, LittleEndian::read_u64(&sub[48..]))
}

// How many bytes the notes have.
#[tactic(auto, unfolding(crate::specs::Header::note_size_in))]
fn note_size_in(header: &[u8], sub: &[u8]) -> u64
    requires header { length header.now ≡ 464 }
    requires sub { length sub.now ≡ 104 }
    ensures { result ≡ note_size_in header.now sub.now }
{
    since(4, header, LittleEndian::read_u64(&sub[56..]))
}

// The file offset of the erase info.
#[tactic(auto, unfolding(crate::specs::Header::erase_offset_in))]
fn erase_offset_in(header: &[u8], sub: &[u8]) -> u64
    requires header { length header.now ≡ 464 }
    requires sub { length sub.now ≡ 104 }
    ensures { result ≡ erase_offset_in header.now sub.now }
{
    since(5, header, LittleEndian::read_u64(&sub[64..]))
}

// How many bytes the erase info has.
#[tactic(auto, unfolding(crate::specs::Header::erase_size_in))]
fn erase_size_in(header: &[u8], sub: &[u8]) -> u64
    requires header { length header.now ≡ 464 }
    requires sub { length sub.now ≡ 104 }
    ensures { result ≡ erase_size_in header.now sub.now }
{
    since(5, header, LittleEndian::read_u64(&sub[72..]))
}

// Whether the header says that the dump is incomplete.
#[tactic(auto, unfolding(crate::specs::Header::is_cut_in))]
fn is_cut_in(header: &[u8]) -> bool
    requires { length header.now ≡ 464 }
    ensures { result ≡ is_cut_in header.now }
{
    LittleEndian::read_u32(&header[424..]) / 8 % 2 == 1
}

// One part of a split dump says so.
fn split(header: &[u8], sub: &[u8]) -> u64
    requires header { length header.now ≡ 464 }
    requires sub { length sub.now ≡ 104 }
    ensures { result ≡ since 2 header.now (number 4 sub.now 12) }
{
    since(2, header, u64::from(LittleEndian::read_u32(&sub[12..])))
}

// How many page frames there are.
#[tactic(auto, unfolding(crate::specs::Header::frames_in))]
fn frames_in(header: &[u8], sub: &[u8]) -> u64
    requires header { length header.now ≡ 464 }
    requires sub { length sub.now ≡ 104 }
    ensures { result ≡ frames_in header.now sub.now }
{
    if version(header) == 6 {
        LittleEndian::read_u64(&sub[96..])
    } else {
        u64::from(LittleEndian::read_u32(&header[440..]))
    }
}

// What is wrong with the headers, but for the places that they name.
#[tactic(auto, unfolding(crate::specs::Header::header_fault))]
fn header_fault(header: &[u8], sub: &[u8]) -> Option<KdumpFault>
    requires header { length header.now ≡ 464 }
    requires sub { length sub.now ≡ 104 }
    ensures { result ≡ header_fault header.now sub.now }
{
    if !is_new(header) {
        Some(KdumpFault::K2)
    } else if !(1..=6).contains(&version(header)) {
        Some(KdumpFault::K3)
    } else if LittleEndian::read_u32(&header[428..]) != 4096 {
        Some(KdumpFault::K4)
    } else if split(header, sub) != 0 {
        Some(KdumpFault::K5)
    } else {
        None
    }
}

// The layout, where its parts are inside a file of this size.
#[tactic(auto, unfolding(crate::specs::Header::placed))]
fn placed(size: u64, blocks: u32, layout: Layout) -> Result<Layout, KdumpFault>
    requires bitmaps { layout.bitmaps ≤ 2 ^ 45 }
    requires half { layout.half ≤ 2 ^ 44 }
    requires blocks { layout.half % 4096 ≡ 0 }
    ensures value { result ≡ placed size blocks layout }
    ensures inside { IfOk result (λ layout. table_in layout ≤ size) }
    ensures bits { IfOk result (λ layout. layout.frames ≤ 8 * layout.half) }
    ensures small { IfOk result (λ layout. layout.half ≤ 2 ^ 44) }
    ensures blocks { IfOk result (λ layout. layout.half % 4096 ≡ 0) }
    ensures notes { IfOk result (λ layout. layout.note_offset + layout.note_size ≤ size) }
    ensures erased { IfOk result (λ layout. layout.erase_offset + layout.erase_size ≤ size) }
    ensures few { IfOk result (λ layout. joined_size layout.note_size layout.erase_size ≤ 16777216) }
{
    if blocks % 2 != 0 || !layout.has_bitmaps(size) {
        Err(KdumpFault::K6)
    } else if !layout.has_notes(size) {
        Err(KdumpFault::K7)
    } else {
        Ok(layout)
    }
}

/// The layout by the two headers, in a file of this size in bytes.
///
/// # Errors
///
/// The first of the faults K2 to K7.
#[tactic(auto, unfolding(crate::specs::Header::layout_in))]
pub fn layout_in(size: u64, header: &[u8], sub: &[u8]) -> Result<Layout, KdumpFault>
    requires header { length header.now ≡ 464 }
    requires sub { length sub.now ≡ 104 }
    ensures value { result ≡ layout_in size header.now sub.now }
    ensures inside { IfOk result (λ layout. table_in layout ≤ size) }
    ensures bits { IfOk result (λ layout. layout.frames ≤ 8 * layout.half) }
    ensures small { IfOk result (λ layout. layout.half ≤ 2 ^ 44) }
    ensures blocks { IfOk result (λ layout. layout.half % 4096 ≡ 0) }
    ensures notes { IfOk result (λ layout. layout.note_offset + layout.note_size ≤ size) }
    ensures erased { IfOk result (λ layout. layout.erase_offset + layout.erase_size ≤ size) }
    ensures few { IfOk result (λ layout. joined_size layout.note_size layout.erase_size ≤ 16777216) }
{
    if let Some(fault) = header_fault(header, sub) {
        return Err(fault);
    }
    placed(size, bitmap_blocks(header), Layout::by(header, sub))
}
