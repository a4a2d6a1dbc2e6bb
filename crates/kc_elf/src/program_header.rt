// Program headers (gABI, "Program Header").
ghost use Rattle.std.specs.Prelude.{◌≡◌, ◌*◌, ◌+◌, ◌≤◌, length, position, IfOk, nat_le, vec_len};
ghost use Rattle.std.specs.Bool.{OnTrue};
ghost use Rattle.kc_elf.specs.Headers.{program_header_of, kind_of, is_bad, has_bytes, has_memory, headers, of_kind, byte_sum};

use byteorder::{ByteOrder, LittleEndian};
use kc_word::Segment;
use std::alloc::{AllocError, Global};

/// What the bytes of a program header are, by `p_type`.
#[derive(Clone, Copy, Debug, PartialEq, Eq)]
pub enum Kind {
    /// Memory: PT_LOAD.
    Load,
    /// Notes: PT_NOTE.
    Note,
    /// Something that isn't looked at.
    Other,
}

/// A program header.
#[derive(Clone, Copy, Debug, PartialEq, Eq)]
pub struct ProgramHeader {
    pub kind: Kind,
    pub segment: Segment,
}

/// How many bytes a program header has.
pub const HEADER_BYTES: usize = 56;

impl ProgramHeader {
    /// The program header that the bytes spell.
    pub fn read(bytes: &[u8]) -> Self
        requires { 56 ≤ length bytes.now }
        ensures { result ≡ program_header_of bytes.now }
    {
        ProgramHeader {
            kind: Kind::of(LittleEndian::read_u32(bytes)),
            segment: Segment {
                paddr: LittleEndian::read_u64(&bytes[24..]),
                filesz: LittleEndian::read_u64(&bytes[32..]),
                memsz: LittleEndian::read_u64(&bytes[40..]),
                offset: LittleEndian::read_u64(&bytes[8..]),
            },
        }
    }
}

impl Kind {
    // What `p_type` says.
    fn of(number: u32) -> Self
        ensures { result ≡ kind_of number }
    {
        match number {
            1 => Kind::Load,
            4 => Kind::Note,
            _ => Kind::Other,
        }
    }
}

impl ProgramHeader {
    /// Whether it is looked at and is out of bounds, in a file of this size.
    pub fn is_bad(&self, size: u64) -> bool
        ensures { result ≡ is_bad size self.now }
    {
        match self.kind {
            Kind::Load => !(has_bytes(&self.segment, size) && has_memory(&self.segment)),
            Kind::Note => !has_bytes(&self.segment, size),
            Kind::Other => false,
        }
    }
}

/// Whether bytes from a file offset on are inside a file of this size.
pub fn is_inside(offset: u64, count: u64, size: u64) -> bool
    ensures value { result ≡ nat_le (offset + count) size }
    ensures inside { OnTrue result (offset + count ≤ size) }
{
    offset <= size && count <= size - offset
}

// Whether the bytes of a segment are inside the file.
fn has_bytes(segment: &Segment, size: u64) -> bool
    ensures { result ≡ has_bytes size segment.now }
{
    is_inside(segment.offset, segment.filesz, size)
}

// Whether the memory of a segment ends at 2^64 at the latest.
fn has_memory(segment: &Segment) -> bool
    ensures { result ≡ has_memory segment.now }
{
    let Segment {
        paddr,
        filesz,
        memsz,
        ..
    } = *segment;
    let count = filesz.max(memsz);
    count == 0 || count - 1 <= u64::MAX - paddr
}

/// The first program headers of a table.
pub fn read_headers(
    alloc: Global,
    table: &[u8],
    count: usize,
) -> Result<Vec<ProgramHeader>, AllocError>
    requires { 56 * count ≤ length table.now }
    ensures found { IfOk result (λ found. found.items ≡ headers count table.now) }
    ensures count { IfOk result (λ found. vec_len found ≡ count) }
{
    let mut found = Vec::new(alloc);
    let mut rest = table;
    while found.len() < count {
        found.push(ProgramHeader::read(&rest[..HEADER_BYTES]))?;
        rest = &rest[HEADER_BYTES..];
    }
    Ok(found)
}

/// The index of the first program header that is out of bounds.
pub fn first_bad(headers: &[ProgramHeader], size: u64) -> Option<usize>
    ensures { result ≡ position (is_bad size) headers.now }
{
    headers.iter().position(|header| header.is_bad(size))
}

/// The segments of the program headers of one kind, in their order.
pub fn of_kind(
    alloc: Global,
    headers: &[ProgramHeader],
    kind: Kind,
) -> Result<Vec<Segment>, AllocError>
    ensures found { IfOk result (λ found. found.items ≡ of_kind kind headers.now) }
    ensures few { IfOk result (λ found. vec_len found ≤ length headers.now) }
{
    let mut found = Vec::new(alloc);
    for header in headers {
        if header.kind == kind {
            found.push(header.segment)?;
        }
    }
    Ok(found)
}

/// Whether the bytes of the segments together are so many at most.
pub fn are_within(segments: &[Segment], limit: u64) -> bool
    ensures { result ≡ nat_le (byte_sum segments.now) limit }
{
    let mut left = limit;
    for segment in segments {
        if left < segment.filesz {
            return false;
        }
        left -= segment.filesz;
    }
    true
}
