// What a command comes to.

/// The whole text of an answer, by the status that it is printed under.
#[derive(Debug, Drop)]
pub enum Answer {
    /// Clean, or done.
    Done(Vec<u8>),
    /// A rule is broken.
    Broken(Vec<u8>),
}
