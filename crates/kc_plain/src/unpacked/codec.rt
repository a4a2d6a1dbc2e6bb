// How a page is packed.
ghost use Rattle.std.specs.Prelude.{◌≡◌};
ghost use Rattle.kc_plain.specs.Unpack.Unpacked.{codec_of};

/// How a page is packed.
#[derive(Clone, Copy, Debug, PartialEq, Eq)]
pub enum Codec {
    /// Not at all.
    Raw,
    /// As a zlib stream (RFC 1950).
    Zlib,
    /// As an LZO1X stream.
    Lzo,
    /// As a snappy stream.
    Snappy,
    /// As zstd frames (RFC 8878).
    Zstd,
}

// The flags of each.
const RAW: u32 = 0;

const ZLIB: u32 = 1;

const LZO: u32 = 2;

const SNAPPY: u32 = 4;

const ZSTD: u32 = 0x20;

impl Codec {
    // The codec of a page, by the flags of its descriptor.
    pub(crate) fn of(flags: u32) -> Option<Codec>
        ensures { result ≡ codec_of flags }
    {
        match flags {
            RAW => Some(Codec::Raw),
            ZLIB => Some(Codec::Zlib),
            LZO => Some(Codec::Lzo),
            SNAPPY => Some(Codec::Snappy),
            ZSTD => Some(Codec::Zstd),
            _ => None,
        }
    }
}
