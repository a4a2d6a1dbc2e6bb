//! What would repair a structure that an audit found broken: suspects are tried one by one, each in a memory of the dump in
//! which its word holds its value, until the walk that broke and then the same root audit stand there. No file is written.
#![tactic(auto)]

mod elements;
mod first;
mod laws;
mod others;
mod outcome;
mod seeking;
mod suspect;
mod trial;
mod tries;

pub use elements::elements_over;
pub use first::{FirstWalk, planned_walk};
pub use laws::know_repairs;
pub use others::{Stand, stand_over};
pub use outcome::{Breach, Next, Repair};
pub use seeking::{repair_left, repair_over};
pub use suspect::{Suspect, Suspects, know_suspects, suspects};
pub use trial::{Judge, RootAudit, ask_changed, judged_over};
pub use tries::{MOST, Repaired, repair};
