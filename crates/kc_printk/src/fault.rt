// Why there is no log.
ghost use Rattle.std.specs.Prelude.{◌≡◌};
ghost use Rattle.kc_printk.specs.Note.{key_of};

use thiserror::Error;

/// A line of VMCOREINFO that leads to the kernel's log.
#[derive(Clone, Copy, Debug, PartialEq, Eq)]
pub enum LogLine {
    /// `SYMBOL(prb)`.
    Prb,
    /// `OFFSET(printk_ringbuffer.desc_ring)`.
    DescRing,
    /// `OFFSET(printk_ringbuffer.text_data_ring)`.
    TextRing,
    /// `OFFSET(prb_desc_ring.count_bits)`.
    CountBits,
    /// `OFFSET(prb_desc_ring.descs)`.
    Descs,
    /// `OFFSET(prb_desc_ring.infos)`.
    Infos,
    /// `OFFSET(prb_desc_ring.head_id)`.
    HeadId,
    /// `OFFSET(prb_desc_ring.tail_id)`.
    TailId,
    /// `OFFSET(prb_data_ring.size_bits)`.
    SizeBits,
    /// `OFFSET(prb_data_ring.data)`.
    TextData,
    /// `OFFSET(atomic_long_t.counter)`.
    Counter,
    /// `SIZE(prb_desc)`.
    DescSize,
    /// `OFFSET(prb_desc.state_var)`.
    StateVar,
    /// `OFFSET(prb_desc.text_blk_lpos)`.
    TextBlock,
    /// `OFFSET(prb_data_blk_lpos.begin)`.
    Begin,
    /// `OFFSET(prb_data_blk_lpos.next)`.
    Next,
    /// `SIZE(printk_info)`.
    InfoSize,
    /// `OFFSET(printk_info.ts_nsec)`.
    Time,
    /// `OFFSET(printk_info.text_len)`.
    TextLength,
}

/// The key of a line: what stands before its `=`.
pub fn key_of(line: LogLine) -> &'static [u8]
    ensures { result.now ≡ key_of line }
{
    match line {
        LogLine::Prb => b"SYMBOL(prb)",
        LogLine::DescRing => b"OFFSET(printk_ringbuffer.desc_ring)",
        LogLine::TextRing => b"OFFSET(printk_ringbuffer.text_data_ring)",
        LogLine::CountBits => b"OFFSET(prb_desc_ring.count_bits)",
        LogLine::Descs => b"OFFSET(prb_desc_ring.descs)",
        LogLine::Infos => b"OFFSET(prb_desc_ring.infos)",
        LogLine::HeadId => b"OFFSET(prb_desc_ring.head_id)",
        LogLine::TailId => b"OFFSET(prb_desc_ring.tail_id)",
        LogLine::SizeBits => b"OFFSET(prb_data_ring.size_bits)",
        LogLine::TextData => b"OFFSET(prb_data_ring.data)",
        LogLine::Counter => b"OFFSET(atomic_long_t.counter)",
        LogLine::DescSize => b"SIZE(prb_desc)",
        LogLine::StateVar => b"OFFSET(prb_desc.state_var)",
        LogLine::TextBlock => b"OFFSET(prb_desc.text_blk_lpos)",
        LogLine::Begin => b"OFFSET(prb_data_blk_lpos.begin)",
        LogLine::Next => b"OFFSET(prb_data_blk_lpos.next)",
        LogLine::InfoSize => b"SIZE(printk_info)",
        LogLine::Time => b"OFFSET(printk_info.ts_nsec)",
        LogLine::TextLength => b"OFFSET(printk_info.text_len)",
    }
}

/// The first fault of the ring of records, in the order in which they stand here.
#[derive(Clone, Copy, Debug, PartialEq, Eq, Error)]
pub enum LogFault {
    /// A line of the note is missing or isn't in order: a symbol is a hex number, an offset a decimal number, and a size a decimal
    /// number that isn't 0.
    #[error("P1: no value of {0:?}")]
    P1(LogLine),
    /// The ring has more than 2^22 descriptors, as of a kernel that was started with log_buf_len=256M or more.
    #[error("P2: too many descriptors")]
    P2,
    /// The ring has more than 2^31 bytes of texts.
    #[error("P3: too many bytes of texts")]
    P3,
    /// The first and the last id are none, or more ids than descriptors stand between them.
    #[error("P4: the first and the last record don't fit the ring")]
    P4,
}
