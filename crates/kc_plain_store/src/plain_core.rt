// The plain core file of a dump, but for its pages.
ghost use Rattle.std.specs.Prelude.{◌+◌, ◌*◌, ◌^◌, ◌≤◌, ◌<◌, vec_len};
ghost use Rattle.kc_kdump.specs.Header.{table_in};

use kc_kdump::Layout;

/// What is known of the plain core file of a compressed dump.
#[derive(Drop)]
pub struct PlainCore {
    /// What stands before the pages.
    pub(crate) head: Vec<u8>,
    /// Where the parts of the dump are.
    pub(crate) layout: Layout,
    /// How many pages there are.
    pub(crate) pages: u64,
    /// Whether those are all that the dump's bitmaps speak of.
    pub(crate) is_whole: bool,
    /// How many bytes the dump has.
    pub(crate) file_size: u64,
    pub(crate) ghost small: { vec_len head ≤ 2 ^ 29 },
    pub(crate) ghost few: { pages ≤ 2 ^ 47 },
    pub(crate) ghost inside: { table_in layout + 24 * pages ≤ file_size },
    pub(crate) ghost fits: { file_size < 2 ^ 64 },
}
