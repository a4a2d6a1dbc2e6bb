// What the definitions say.
ghost use Rattle.kc_slab_scan.specs.CpuLaws.{CpusStand, NumbersShow};
ghost use Rattle.kc_slab_scan.specs.Laws.{BrokenStand, FramesAreCounted, SoundIsOfAll};

use kc_found::{know_numbers, know_places};
use kc_slab_page::know_slab_pages;
use kc_slub::know_free_lists;
use kc_view::know_values;

/// Does nothing. Each word that shows what a slab breaks stands in the dump, at the place that is shown; as many frames are counted as
/// there are, in 64 bits; and where no slab is told that breaks a rule or that can't be told, each page is no slab or a whole one.
pub fn know_scans()
    ensures stand { BrokenStand }
    ensures counted { FramesAreCounted }
    ensures sound { SoundIsOfAll }
{
    know_slab_pages();
}

/// Does nothing. Each word that shows what a processor's slab breaks stands in the dump, at the place that is shown; and so do the words that
/// show why the processors can't be told.
pub fn know_cpus()
    ensures stand { CpusStand }
    ensures told { NumbersShow }
{
    know_places();
    know_numbers();
    know_values();
    know_free_lists();
}
