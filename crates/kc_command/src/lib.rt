//! The files of a command and its end: what a kernel's files hold, a plan's text, a certificate's and a report's, or the first
//! refusal; and the text and status that a command ends with.
#![tactic(auto)]

mod cert;
mod dump;
mod ends;
mod file;
mod find;
mod halt;
mod kernel;
mod line;
mod map;
mod module;
mod plan;
mod refusal;
mod report;
mod types;

pub use cert::read_cert_file;
pub use dump::{VIEW_HEADERS, paging_by, read_dump, read_info};
pub use ends::{Answer, Status, finish};
pub use file::read_file;
pub use find::{find_field, find_named, find_symbol};
pub use halt::Halt;
pub use kernel::{Kernel, KernelFiles, Noted, read_kernel, read_noted};
pub use line::refusal_line;
pub use map::{read_map, read_symbols};
pub use module::read_module;
pub use plan::read_plan_file;
pub use refusal::{Refusal, ReportFault};
pub use report::read_report_file;
pub use types::{read_types, take_types};
