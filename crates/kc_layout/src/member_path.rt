//! Which member of a struct or union has a byte of it, as the path that names the member.

mod path;
mod step;

pub use path::push_member;
