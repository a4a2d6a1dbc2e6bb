// What VMCOREINFO says of the ring of records (Documentation/admin-guide/kdump/vmcoreinfo.rst).
ghost use Rattle.std.specs.Prelude.{◌≡◌, option_and_then};
ghost use Rattle.kc_word.specs.Hex.{hex_number};
ghost use Rattle.kc_notes.specs.Info.{bits_of};
ghost use Rattle.kc_notes.specs.Values.{value_of};
ghost use Rattle.kc_printk.specs.Note.{desc_layout, info_layout, key_of, layout_of, offset_in, ring_layout, size_in, some_size, symbol_in};

use crate::fault::{LogFault, LogLine, key_of};
use kc_notes::value;
use kc_word::{read_dec, read_hex};

/// Where the parts of the ring stand. Offsets are in bytes.
#[derive(Clone, Copy, Debug, PartialEq, Eq)]
pub struct RingLayout {
    /// The virtual address of the pointer to the `struct printk_ringbuffer`.
    pub prb: u64,
    /// Of the ring of descriptors and of the ring of texts in it.
    pub desc_ring: u64,
    pub text_ring: u64,
    /// Of the parts of a ring of descriptors.
    pub count_bits: u64,
    pub descs: u64,
    pub infos: u64,
    pub head_id: u64,
    pub tail_id: u64,
    /// Of the parts of a ring of texts.
    pub size_bits: u64,
    pub text_data: u64,
    /// Of the number in an `atomic_long_t`.
    pub counter: u64,
}

/// Where the parts of a descriptor stand. Offsets are in bytes.
#[derive(Clone, Copy, Debug, PartialEq, Eq)]
pub struct DescLayout {
    /// Its size in bytes.
    pub size: u64,
    pub state_var: u64,
    pub counter: u64,
    pub text_block: u64,
    /// Of the parts of a `struct prb_data_blk_lpos`.
    pub begin: u64,
    pub next: u64,
}

/// Where the parts of a `struct printk_info` stand. Offsets are in bytes.
#[derive(Clone, Copy, Debug, PartialEq, Eq)]
pub struct InfoLayout {
    /// Its size in bytes.
    pub size: u64,
    pub time: u64,
    pub text_length: u64,
}

/// All of these.
#[derive(Clone, Copy, Debug, PartialEq, Eq)]
pub struct LogLayout {
    pub ring: RingLayout,
    pub desc: DescLayout,
    pub info: InfoLayout,
}

// The hex number of a line.
fn read_symbol(note: &[u8], line: LogLine) -> Option<u64>
    ensures { result ≡ option_and_then hex_number (value_of (key_of line) note.now) }
{
    read_hex(value(note, key_of(line))?)
}

// The decimal number of a text, in 64 bits.
fn read_bits(text: &[u8]) -> Option<u64>
    ensures { result ≡ bits_of text.now }
{
    Some(read_dec(text)?.cast_unsigned())
}

// The decimal number of a line.
fn read_number(note: &[u8], line: LogLine) -> Option<u64>
    ensures { result ≡ option_and_then bits_of (value_of (key_of line) note.now) }
{
    read_bits(value(note, key_of(line))?)
}

// The address that a line has.
#[tactic(auto, unfolding(crate::specs::Note::symbol_in))]
fn symbol_in(note: &[u8], line: LogLine) -> Result<u64, LogFault>
    ensures { result ≡ symbol_in line note.now }
{
    match read_symbol(note, line) {
        Some(address) => Ok(address),
        None => Err(LogFault::P1(line)),
    }
}

// The offset that a line has.
#[tactic(auto, unfolding(crate::specs::Note::offset_in))]
fn offset_in(note: &[u8], line: LogLine) -> Result<u64, LogFault>
    ensures { result ≡ offset_in line note.now }
{
    match read_number(note, line) {
        Some(offset) => Ok(offset),
        None => Err(LogFault::P1(line)),
    }
}

// A size, which isn't 0.
fn some_size(line: LogLine, size: u64) -> Result<u64, LogFault>
    ensures { result ≡ some_size line size }
{
    if size == 0 {
        Err(LogFault::P1(line))
    } else {
        Ok(size)
    }
}

// The size that a line has.
#[tactic(auto, unfolding(crate::specs::Note::size_in))]
fn size_in(note: &[u8], line: LogLine) -> Result<u64, LogFault>
    ensures { result ≡ size_in line note.now }
{
    let size = offset_in(note, line)?;
    some_size(line, size)
}

// What the note says of the ring.
#[tactic(auto, unfolding(crate::specs::Note::ring_layout))]
fn ring_layout(note: &[u8]) -> Result<RingLayout, LogFault>
    ensures { result ≡ ring_layout note.now }
{
    let prb = symbol_in(note, LogLine::Prb)?;
    let desc_ring = offset_in(note, LogLine::DescRing)?;
    let text_ring = offset_in(note, LogLine::TextRing)?;
    let count_bits = offset_in(note, LogLine::CountBits)?;
    let descs = offset_in(note, LogLine::Descs)?;
    let infos = offset_in(note, LogLine::Infos)?;
    let head_id = offset_in(note, LogLine::HeadId)?;
    let tail_id = offset_in(note, LogLine::TailId)?;
    let size_bits = offset_in(note, LogLine::SizeBits)?;
    let text_data = offset_in(note, LogLine::TextData)?;
    let counter = offset_in(note, LogLine::Counter)?;
    Ok(RingLayout {
        prb,
        desc_ring,
        text_ring,
        count_bits,
        descs,
        infos,
        head_id,
        tail_id,
        size_bits,
        text_data,
        counter,
    })
}

// What the note says of a descriptor.
#[tactic(auto, unfolding(crate::specs::Note::desc_layout))]
fn desc_layout(note: &[u8]) -> Result<DescLayout, LogFault>
    ensures { result ≡ desc_layout note.now }
{
    let size = size_in(note, LogLine::DescSize)?;
    let state_var = offset_in(note, LogLine::StateVar)?;
    let counter = offset_in(note, LogLine::Counter)?;
    let text_block = offset_in(note, LogLine::TextBlock)?;
    let begin = offset_in(note, LogLine::Begin)?;
    let next = offset_in(note, LogLine::Next)?;
    Ok(DescLayout {
        size,
        state_var,
        counter,
        text_block,
        begin,
        next,
    })
}

// What the note says of a record's info.
#[tactic(auto, unfolding(crate::specs::Note::info_layout))]
fn info_layout(note: &[u8]) -> Result<InfoLayout, LogFault>
    ensures { result ≡ info_layout note.now }
{
    let size = size_in(note, LogLine::InfoSize)?;
    let time = offset_in(note, LogLine::Time)?;
    let text_length = offset_in(note, LogLine::TextLength)?;
    Ok(InfoLayout {
        size,
        time,
        text_length,
    })
}

/// What the text of VMCOREINFO says of the ring of records. It takes no memory.
///
/// # Errors
///
/// `P1` of the first line that is missing or isn't in order, in the order of `LogLine`.
#[tactic(auto, unfolding(crate::specs::Note::layout_of))]
pub fn layout_of(note: &[u8]) -> Result<LogLayout, LogFault>
    ensures { result ≡ layout_of note.now }
{
    let ring = ring_layout(note)?;
    let desc = desc_layout(note)?;
    let info = info_layout(note)?;
    Ok(LogLayout { ring, desc, info })
}
