// What is read of a compressed dump.
ghost use Rattle.std.specs.Prelude.{◌≡◌, ◌≤◌, ◌^◌, vec_len};
ghost use Rattle.kc_kdump.specs.Runs.{page_count, reach};

use crate::layout::Layout;
use crate::run::PageRun;

/// What the container of a compressed dump holds.
#[derive(Drop)]
pub struct Kdump {
    /// Where its parts are.
    pub layout: Layout,
    /// The runs of page frames, the lowest first.
    pub runs: Vec<PageRun>,
    /// How many pages are in the dump.
    pub pages: u64,
    /// Whether the last page that the bitmaps speak of is in the file, and the header doesn't say that pages lack. Of a file that was cut
    /// pages may lack all the same, where its last page is one of zeros, which share one at the front.
    pub is_whole: bool,
    /// The bytes of the PT_NOTE segment of the machine's memory image, and after them the erase info as a note, where there is some.
    pub notes: Vec<u8>,
    pub ghost counted: { pages ≡ page_count runs.items },
    pub ghost reached: { reach runs.items ≤ 2 ^ 47 },
    pub ghost few: { vec_len runs ≤ 4194304 },
}
