// The tokens of checks.
use crate::tree::Operator;

#[derive(Drop)]
pub(crate) enum Token {
    // `!`
    Not,
    // `(`
    Open,
    // `)`
    Close,
    Operator(Operator),
    Literal(u64),
    Path(Vec<u8>),
}
