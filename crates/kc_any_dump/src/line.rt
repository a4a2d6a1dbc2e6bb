// The line of a cause.
ghost use Rattle.std.specs.Prelude.{◌≡◌, ◌++◌, codes, decimal, IfOk, OnOk};
ghost use Rattle.kc_any_dump.specs.Lines.{cause_line, cause_text, flat_text, kdump_text, page_text, zlib_text};

use crate::cause::Cause;
use kc_flattened::FlatFault;
use kc_inflate::ZlibFault;
use kc_kdump::KdumpFault;
use kc_plain::PageFault;
use kc_plain_store::BadPage;
use kc_text::{push, push_numbered};
use kc_word::NoMemory;
use std::alloc::Global;

fn flat_text(fault: FlatFault) -> &'static [u8]
    ensures { result.now ≡ flat_text fault }
{
    match fault {
        FlatFault::Header => b"W1: the header of the flattened file",
        FlatFault::Bounds => b"W2: a record with an offset or a size that is out of bounds",
        FlatFault::PastEnd => b"W3: a record past the end of the file",
        FlatFault::NoEnd => b"W4: no last record",
        FlatFault::TooMany => b"W5: too many records",
    }
}

fn kdump_text(fault: KdumpFault) -> &'static [u8]
    ensures { result.now ≡ kdump_text fault }
{
    match fault {
        KdumpFault::K1 => b"K1: the file is too short for the headers",
        KdumpFault::K2 => b"K2: of the older format",
        KdumpFault::K3 => b"K3: of another version",
        KdumpFault::K4 => b"K4: blocks of another size",
        KdumpFault::K5 =>
            b"K5: one part of a split dump: makedumpfile --reassemble joins the parts",
        KdumpFault::K6 => b"K6: bitmaps outside the file, or too short",
        KdumpFault::K7 => b"K7: notes outside the file, or too many",
        KdumpFault::K8 => b"K8: too many runs of page frames",
    }
}

fn zlib_text(fault: ZlibFault) -> &'static [u8]
    ensures { result.now ≡ zlib_text fault }
{
    match fault {
        ZlibFault::InputEnds => b"the stream ends too soon",
        ZlibFault::Head => b"no zlib stream, or one with a preset dictionary",
        ZlibFault::BlockType => b"a block of an unknown type",
        ZlibFault::StoredLength => b"a stored block's length isn't the complement of its check",
        ZlibFault::TooManyCodes => b"a set of codes has too many of a length",
        ZlibFault::Repeat => b"a code length is repeated where it can't be",
        ZlibFault::NoCode => b"the bits begin with no code",
        ZlibFault::Distance => b"a distance leads to before the first byte",
        ZlibFault::TooManyBytes => b"the stream has too many bytes",
        ZlibFault::TooFewBytes => b"the stream has too few bytes",
        ZlibFault::Sum => b"the sum at the end is another",
    }
}

fn push_two(text: &mut Vec<u8>, one: &[u8], two: &[u8]) -> Result<(), NoMemory>
    ensures { OnOk result (text.new.items ≡ text.old.items ++ (one.now ++ two.now)) }
{
    push(text, one)?;
    push(text, two)
}

fn push_page_text(text: &mut Vec<u8>, fault: PageFault) -> Result<(), NoMemory>
    ensures { OnOk result (text.new.items ≡ text.old.items ++ page_text fault) }
{
    match fault {
        PageFault::OutsideFile => push(text, b"D1: its bytes are outside the file"),
        PageFault::Size => push(text, b"D2: its bytes are of another number"),
        PageFault::Packing(flags) => push_numbered(
            text,
            b"D3: packed in another way, by flags ",
            u64::from(flags),
        ),
        PageFault::Zlib(fault) => {
            push_two(text, b"D4: no zlib stream of a page: ", zlib_text(fault))
        }
        PageFault::Lzo(_) => push(text, b"D5: no LZO stream of a page"),
        PageFault::Snappy(_) => push(text, b"D6: no snappy stream of a page"),
        PageFault::Zstd(_) => push(text, b"D7: no zstd stream of a page"),
    }
}

fn push_bad(text: &mut Vec<u8>, bad: BadPage) -> Result<(), NoMemory>
    ensures { OnOk result (text.new.items ≡ text.old.items ++ (codes "bad page " ++ decimal bad.number ++ codes " " ++ page_text bad.fault)) }
{
    push_numbered(text, b"bad page ", bad.number)?;
    push(text, b" ")?;
    push_page_text(text, bad.fault)
}

fn push_cause(text: &mut Vec<u8>, cause: Cause) -> Result<(), NoMemory>
    ensures { OnOk result (text.new.items ≡ text.old.items ++ cause_text cause) }
{
    match cause {
        Cause::Flattened(fault) => push_two(text, b"refused dump ", flat_text(fault)),
        Cause::Compressed(fault) => push_two(text, b"refused dump ", kdump_text(fault)),
        Cause::Page(bad) => push_bad(text, bad),
        Cause::Memory => push(text, b"memory refused"),
    }
}

/// The line that says why a dump can't be read.
///
/// # Errors
///
/// `NoMemory` where no memory is left.
pub fn cause_line(alloc: Global, cause: Cause) -> Result<Vec<u8>, NoMemory>
    ensures { IfOk result (λ line. line.items ≡ cause_line cause) }
{
    let mut line = Vec::new(alloc);
    push_cause(&mut line, cause)?;
    push(&mut line, b"\n")?;
    Ok(line)
}
