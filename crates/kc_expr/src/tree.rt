// The trees of checks.

/// An operator between two values.
#[derive(Clone, Copy)]
pub enum Operator {
    /// `||`
    Either,
    /// `&&`
    Both,
    /// `==`
    Equal,
    /// `!=`
    NotEqual,
    /// `<=`
    LessEqual,
    /// `>=`
    GreaterEqual,
    /// `<`
    Less,
    /// `>`
    Greater,
    /// `+`
    Plus,
    /// `-`
    Minus,
    /// `&`
    BitAnd,
    /// `|`
    BitOr,
    /// `^`
    BitXor,
}

// A check, with its parentheses.
#[derive(Drop)]
pub(crate) enum Node {
    // A number.
    Literal(u64),
    // The path of a field.
    Field(Vec<u8>),
    // `!`
    Negation(Box<Node>),
    // Parentheses.
    Group(Box<Node>),
    // An operator between two.
    Binary(Operator, Box<Node>, Box<Node>),
}
