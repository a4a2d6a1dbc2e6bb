// The values of operators.
ghost use Rattle.std.specs.Prelude.{◌≡◌, ◌+◌, ◌<◌, ◌≤◌, ◌^◌, ◌+ℤ◌, ◌-ℤ◌};
ghost use Rattle.kc_expr.specs.Values.{applied, truth, is_true, size, int_and, int_or, int_xor};

use crate::tree::Operator;

pub(crate) fn truth(b: bool) -> i128
    ensures value { result ≡ truth b }
    ensures size { size result ≤ 1 }
{
    if b { 1 } else { 0 }
}

pub(crate) fn is_true(x: i128) -> bool
    ensures { result ≡ is_true x }
{
    x != 0
}

fn bits_and(x: i128, y: i128) -> i128
    requires x { size x < 2 ^ 127 }
    requires y { size y < 2 ^ 127 }
    ensures value { result ≡ int_and x y }
    ensures size { size result ≤ size x + size y }
{
    x & y
}

fn bits_or(x: i128, y: i128) -> i128
    requires x { size x < 2 ^ 127 }
    requires y { size y < 2 ^ 127 }
    ensures value { result ≡ int_or x y }
    ensures size { size result ≤ size x + size y }
{
    x | y
}

fn bits_xor(x: i128, y: i128) -> i128
    requires x { size x < 2 ^ 127 }
    requires y { size y < 2 ^ 127 }
    ensures value { result ≡ int_xor x y }
    ensures size { size result ≤ size x + size y }
{
    x ^ y
}

fn sum(x: i128, y: i128) -> i128
    requires { size x + size y < 2 ^ 73 }
    ensures value { result ≡ x +ℤ y }
    ensures size { size result ≤ size x + size y + 1 }
{
    x + y
}

fn difference(x: i128, y: i128) -> i128
    requires { size x + size y < 2 ^ 73 }
    ensures value { result ≡ x -ℤ y }
    ensures size { size result ≤ size x + size y + 1 }
{
    x - y
}

// The value of an operator between two values, and how large it is at most.
pub(crate) fn applied(op: Operator, x: i128, y: i128) -> i128
    requires { size x + size y < 2 ^ 73 }
    ensures value { result ≡ applied op x y }
    ensures size { size result ≤ size x + size y + 1 }
{
    match op {
        Operator::Either => truth(is_true(x) || is_true(y)),
        Operator::Both => truth(is_true(x) && is_true(y)),
        Operator::Equal => truth(x == y),
        Operator::NotEqual => truth(x != y),
        Operator::LessEqual => truth(x <= y),
        Operator::GreaterEqual => truth(x >= y),
        Operator::Less => truth(x < y),
        Operator::Greater => truth(x > y),
        Operator::Plus => sum(x, y),
        Operator::Minus => difference(x, y),
        Operator::BitAnd => bits_and(x, y),
        Operator::BitOr => bits_or(x, y),
        Operator::BitXor => bits_xor(x, y),
    }
}
