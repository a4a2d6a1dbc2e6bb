// Unpacking a page.
ghost use Rattle.std.specs.Prelude.{◌≡◌, ◌≤◌, ◌+◌, length, IfErr, OnOk, Ok, Err};
ghost use Rattle.kc_inflate.specs.Zlib.{zlib_of};
ghost use Rattle.kc_lzo.specs.Lzo.{lzo_of};
ghost use Rattle.kc_snappy.specs.Snappy.{snappy_of};
ghost use Rattle.kc_zstd.specs.Zstd.{zstd_of};
ghost use Rattle.kc_plain.specs.Unpack.Unpacked.{by_codec, by_lzo, by_snappy, by_zlib, by_zstd, descriptor_fault, raw, unpacked};
ghost use Rattle.std.specs.Option.{IfNone};

use crate::unpacked::codec::Codec;
use crate::unpacked::fault::PageFault;
use crate::unpacked::unpacker::Unpacker;
use kc_inflate::{Tables, unzip};
use kc_kdump::Descriptor;
use kc_lzo::unlzo;
use kc_snappy::unsnappy;
use kc_zstd::{ZstdTables, unzstd};

/// How many bytes a page has.
pub const PAGE_BYTES: usize = 4096;

/// What is wrong with a descriptor, in a file of this size, in bytes.
#[tactic(auto, unfolding(crate::specs::Unpack::Unpacked::descriptor_fault))]
pub fn descriptor_fault(descriptor: Descriptor, size: u64) -> Option<PageFault>
    ensures value { result ≡ descriptor_fault size descriptor }
    ensures inside { IfNone result (descriptor.offset + descriptor.size ≤ size) }
    ensures small { IfNone result (descriptor.size ≤ 4096) }
{
    if descriptor.offset > size || u64::from(descriptor.size) > size - descriptor.offset {
        Some(PageFault::OutsideFile)
    } else if descriptor.size as usize > PAGE_BYTES {
        Some(PageFault::Size)
    } else {
        None
    }
}

// A page that isn't packed.
fn copy_raw(bytes: &[u8], page: &mut [u8]) -> Result<(), PageFault>
    requires { length page.old ≡ 4096 }
    ensures ok { OnOk result (raw bytes.now ≡ Ok page.new) }
    ensures err { IfErr result (λ fault. raw bytes.now ≡ Err fault) }
{
    if bytes.len() != PAGE_BYTES {
        return Err(PageFault::Size);
    }
    page.copy_from_slice(bytes);
    Ok(())
}

// A page that zlib packed.
fn copy_zlib(tables: &mut Tables, bytes: &[u8], page: &mut [u8]) -> Result<(), PageFault>
    requires { length page.old ≡ 4096 }
    ensures ok { OnOk result (by_zlib (zlib_of 4096 bytes.now) ≡ Ok page.new) }
    ensures err { IfErr result (λ fault. by_zlib (zlib_of 4096 bytes.now) ≡ Err fault) }
{
    match unzip(tables, bytes, page) {
        Ok(()) => Ok(()),
        Err(fault) => Err(PageFault::Zlib(fault)),
    }
}

// A page that LZO packed.
fn copy_lzo(bytes: &[u8], page: &mut [u8]) -> Result<(), PageFault>
    requires { length page.old ≡ 4096 }
    ensures ok { OnOk result (by_lzo (lzo_of 4096 bytes.now) ≡ Ok page.new) }
    ensures err { IfErr result (λ fault. by_lzo (lzo_of 4096 bytes.now) ≡ Err fault) }
{
    match unlzo(bytes, page) {
        Ok(()) => Ok(()),
        Err(fault) => Err(PageFault::Lzo(fault)),
    }
}

// A page that snappy packed.
fn copy_snappy(bytes: &[u8], page: &mut [u8]) -> Result<(), PageFault>
    requires { length page.old ≡ 4096 }
    ensures ok { OnOk result (by_snappy (snappy_of 4096 bytes.now) ≡ Ok page.new) }
    ensures err { IfErr result (λ fault. by_snappy (snappy_of 4096 bytes.now) ≡ Err fault) }
{
    match unsnappy(bytes, page) {
        Ok(()) => Ok(()),
        Err(fault) => Err(PageFault::Snappy(fault)),
    }
}

// A page that zstd packed.
fn copy_zstd(tables: &mut ZstdTables, bytes: &[u8], page: &mut [u8]) -> Result<(), PageFault>
    requires { length page.old ≡ 4096 }
    ensures ok { OnOk result (by_zstd (zstd_of 4096 bytes.now) ≡ Ok page.new) }
    ensures err { IfErr result (λ fault. by_zstd (zstd_of 4096 bytes.now) ≡ Err fault) }
{
    match unzstd(tables, bytes, page) {
        Ok(()) => Ok(()),
        Err(fault) => Err(PageFault::Zstd(fault)),
    }
}

// A page that is packed in a known way.
fn copy_by(
    unpacker: &mut Unpacker,
    codec: Codec,
    bytes: &[u8],
    page: &mut [u8],
) -> Result<(), PageFault>
    requires { length page.old ≡ 4096 }
    ensures ok { OnOk result (by_codec codec bytes.now ≡ Ok page.new) }
    ensures err { IfErr result (λ fault. by_codec codec bytes.now ≡ Err fault) }
{
    match codec {
        Codec::Raw => copy_raw(bytes, page),
        Codec::Zlib => copy_zlib(&mut unpacker.zlib, bytes, page),
        Codec::Lzo => copy_lzo(bytes, page),
        Codec::Snappy => copy_snappy(bytes, page),
        Codec::Zstd => copy_zstd(&mut unpacker.zstd, bytes, page),
    }
}

/// Unpacks a page from its bytes, by the flags of its descriptor.
///
/// # Errors
///
/// What the bytes are not. The buffer then holds any bytes.
#[tactic(auto, unfolding(crate::specs::Unpack::Unpacked::unpacked))]
pub fn unpack(
    unpacker: &mut Unpacker,
    flags: u32,
    bytes: &[u8],
    page: &mut [u8],
) -> Result<(), PageFault>
    requires { length page.old ≡ 4096 }
    ensures ok { OnOk result (unpacked flags bytes.now ≡ Ok page.new) }
    ensures err { IfErr result (λ fault. unpacked flags bytes.now ≡ Err fault) }
{
    match Codec::of(flags) {
        Some(codec) => copy_by(unpacker, codec, bytes, page),
        None => Err(PageFault::Packing(flags)),
    }
}
