// What pages are unpacked by.
use kc_inflate::Tables;
use kc_word::NoMemory;
use kc_zstd::ZstdTables;
use std::alloc::Global;

/// The tables that pages are unpacked by, taken once for all pages.
#[derive(Drop)]
pub struct Unpacker {
    // Of zlib streams.
    pub(crate) zlib: Tables,
    // Of zstd frames.
    pub(crate) zstd: ZstdTables,
}

impl Unpacker {
    /// Takes the memory for the tables. No page takes more.
    ///
    /// # Errors
    ///
    /// `NoMemory` where no memory is left.
    pub fn new(alloc: Global) -> Result<Unpacker, NoMemory> {
        Ok(Unpacker {
            zlib: Tables::new(alloc)?,
            zstd: ZstdTables::new(alloc)?,
        })
    }
}
