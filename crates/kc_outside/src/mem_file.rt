// What a store in memory is made of.
use std::string::String;

// A file of a store in memory.
#[derive(Drop)]
pub(crate) struct MemFile {
    pub(crate) name: String,
    pub(crate) bytes: Vec<u8>,
}

// What a slot of such a store holds: nothing, or the file at a place of its list, of which the size is
// learnt or isn't.
#[derive(Clone, Copy)]
pub(crate) enum Held {
    Nothing,
    Opened(usize),
    Learnt(usize),
}
