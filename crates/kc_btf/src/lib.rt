//! A reader of the kernel's type information, BTF: the types of a kernel as its build wrote them,
//! by the kernel's document "BPF Type Format", header version 1, kinds 1 to 19.
#![tactic(auto)]

mod btf;
mod header;
mod inside;
mod kind;
mod members;
mod places;
mod record;
mod stop;
mod types;

pub use btf::Btf;
pub use header::Header;
pub use inside::{Limits, check_inside};
pub use kind::{Kind, Role};
pub use members::Members;
pub use places::record_places;
pub use stop::{BRule, BtfFault, BtfStop};
pub use types::{ArrayOf, IntOf, Member, TypeRef};
