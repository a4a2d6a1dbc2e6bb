// Why a page can't be had.
use kc_inflate::ZlibFault;
use kc_lzo::LzoFault;
use kc_snappy::SnappyFault;
use kc_zstd::ZstdFault;
use thiserror::Error;

/// The first fault of a page, in the order in which they stand here.
#[derive(Clone, Copy, Debug, PartialEq, Eq, Error)]
pub enum PageFault {
    /// The bytes that the descriptor names aren't inside the file.
    #[error("D1: its bytes are outside the file")]
    OutsideFile,
    /// A page that isn't packed hasn't 4096 bytes, or a packed one has more.
    #[error("D2: its bytes are of another number")]
    Size,
    /// It is packed in a way that isn't read: the flags of its descriptor.
    #[error("D3: packed in another way, by flags {0}")]
    Packing(u32),
    /// It is no zlib stream of 4096 bytes.
    #[error("D4: no zlib stream of a page: {0}")]
    Zlib(ZlibFault),
    /// It is no LZO1X stream of 4096 bytes.
    #[error("D5: no LZO stream of a page")]
    Lzo(LzoFault),
    /// It is no snappy stream of 4096 bytes.
    #[error("D6: no snappy stream of a page")]
    Snappy(SnappyFault),
    /// It is no zstd frames of 4096 bytes.
    #[error("D7: no zstd stream of a page")]
    Zstd(ZstdFault),
}
