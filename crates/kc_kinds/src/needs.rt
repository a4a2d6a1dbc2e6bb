// What a kind of audit may ask of a key.

/// What a kind of audit asks of a key.
#[derive(Clone, Copy)]
pub enum Need {
    /// It must be there.
    Required,
    /// It may be there.
    Allowed,
    /// It isn't for this kind.
    Barred,
}

/// What a kind asks of the keys that aren't for all kinds.
#[derive(Clone, Copy)]
pub struct Needs {
    /// Of `element`.
    pub element: Need,
    /// Of `link`.
    pub link: Need,
    /// Of `key`, `unique` and `cached`.
    pub tree: Need,
}
