//! What the descriptor of a page says: its flags and its count, what it is a page of, and the free block that has it; and the text of
//! that.
#![tactic(auto)]

mod block;
mod frame;
mod laws;
mod shape;
mod text;
mod words;
mod zone;

pub use block::FreeBlock;
pub use frame::{FrameWords, FreePage, read_frame};
pub use laws::know_frames;
pub use shape::{FrameShape, frame_shape};
pub use text::push_frame;
pub use words::{FrameFlags, FrameMapping, MappingKind};
pub use zone::ZoneShape;
