//! What is found in a dump's memory, over the words of `kc_memory`, whose public items are this crate's too.
#![tactic(auto)]

mod asked;
mod blocks;
mod claims;
mod counted;
mod failed;
mod found;
mod free;
mod items;
mod laws;
mod list_space;
mod shapes;
mod take;
mod test;
mod trees;
mod verdict;
mod xarrays;

pub use asked::Asked;
pub use claims::Claims;
pub use counted::Counted;
pub use failed::ReadFailed;
pub use found::{
    Found, WalkStop, broken_at, broken_by, broken_field, push_node, stopped, stopped_behind,
};
pub use free::{FreeLed, Grid, decode, low_word};
pub use items::{Audits, Counts, Items, Name, Places, Verdicts, Walked};
pub use kc_memory::{
    FrameStop, Frames, Miss, Origin, PWord, Place, Rule, Scalar, Space, Stop, VWord, entry_place,
    know_numbers, know_pages, know_places, know_words, place_of, read_bits,
};
pub use laws::know_steps;
pub use list_space::ListSpace;
pub use shapes::{HShape, ListShape, RbShape};
pub use take::take_word;
pub use test::{TestStop, know_most, test_stop_of};
pub use trees::{RbHead, RbKey, RbLinks, RbSpot};
pub use verdict::{AuditCount, RootVerdict, Verdict};
pub use xarrays::{XaEntry, XaHolder, XaItem, XaNode, XaShape, XaWalked, XaWords};
