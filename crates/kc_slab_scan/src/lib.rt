//! Each page frame of a dump, looked at once: which are slabs, what they have, and what they break. Beside that the slabs that processors
//! own, with the free list that a processor keeps of its slab of each cache, and whether that has an object.
#![tactic(auto)]

mod cpu_list;
mod cpu_object;
mod cpu_scan;
mod cpu_words;
mod cpus;
mod laws;
mod scan;
mod totals;

pub use cpu_list::{CpuBroken, CpuFree, CpuSeen, LaidCache, look_at_cpu};
pub use cpu_object::{CpuSpot, SlabObject, find_spot};
pub use cpu_scan::{BrokenCpu, CpuScan, Processors, scan_cpus};
pub use cpu_words::{CpuShape, cpu_shape};
pub use cpus::{Cpu, Cpus, read_cpus};
pub use laws::{know_cpus, know_scans};
pub use scan::{SlabPages, scan_frames};
pub use totals::{BrokenSlab, Scan, Totals};
