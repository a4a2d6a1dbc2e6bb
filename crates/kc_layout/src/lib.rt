//! Types and paths over a kernel's type information: the type with a name, the size of a type, its members, the place
//! of a member that a path names, and the path of the member at an offset.
#![tactic(auto)]

mod bare;
mod fault;
mod find;
mod listing;
mod member;
mod member_path;
mod names;
mod path;
mod place;
mod resolving;
mod size;

pub use bare::{array_under, compound_under, pointers_under};
pub use fault::{PathFault, QRule};
pub use find::find_type;
pub use listing::{Line, list_members};
pub use member_path::push_member;
pub use names::Names;
pub use path::know_paths;
pub use place::{Field, Hops, Located};
pub use resolving::{locate, resolve};
pub use size::size_of;
