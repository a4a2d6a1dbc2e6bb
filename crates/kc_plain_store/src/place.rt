// Places for pages.
ghost use Rattle.std.specs.Prelude.{◌≡◌, vec_len};

use kc_plain::Unpacker;

/// A place for a page of the dump.
#[derive(Drop)]
pub struct PagePlace {
    // The number of the page that is kept here, among those in the dump.
    pub(crate) number: Option<u64>,
    // Its bytes.
    pub(crate) bytes: Vec<u8>,
    pub(crate) ghost room: { vec_len bytes ≡ 4096 },
}

/// PageRoom to unpack a page in.
#[derive(Drop)]
pub struct PageRoom {
    // What pages are unpacked by.
    pub(crate) unpacker: Unpacker,
    // The bytes that a page is packed in.
    pub(crate) packed: [u8; 4096],
}

/// Pages that were unpacked, and room to unpack others.
#[derive(Drop)]
pub struct KeptPages {
    // The place of a page is its number modulo how many there are.
    pub(crate) places: Vec<PagePlace>,
    pub(crate) room: PageRoom,
    pub(crate) ghost many: { vec_len places ≡ 256 },
}
