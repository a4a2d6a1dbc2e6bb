// What a kind needs of a kernel beside its members, and what an audit gives of its own.
use kc_word::Bits;

/// The structs and symbols that a kind needs of a kernel.
#[derive(Clone, Copy)]
pub struct Row {
    /// The number of the struct of its head.
    pub head: Option<u32>,
    /// That of the struct of its nodes.
    pub node: Option<u32>,
    /// The type of its elements, where it has no key for that.
    pub element: Option<u32>,
    /// A type has the name of the struct of its head, where a root audit without a type of its own asks for that at once.
    pub named: bool,
    /// No symbol that it reads has two addresses.
    pub clear: bool,
}

/// What an audit gives of its own.
#[derive(Clone, Copy)]
pub struct Own {
    /// The byte of the node in an element.
    pub link: u64,
    /// The bits of the key there.
    pub key: Option<Bits>,
    /// Whether no two elements have one key.
    pub unique: bool,
    /// Whether the root keeps the first element.
    pub cached: bool,
}
