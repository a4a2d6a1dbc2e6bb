//! The walk of the kernel's task list: thread groups, their threads, children and stacks (`struct task_struct`).
#![tactic(auto)]

mod group;
mod laws;
mod pass;
mod rings;
mod thread;
mod walk;
mod walks;

pub use laws::know_tasks;
pub use walk::{tasks_walk, tasks_walk_by};
