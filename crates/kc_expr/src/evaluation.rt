// The value of a check.
ghost use Rattle.std.specs.Prelude.{◌≡◌, ◌<◌, ◌≤◌, ◌^◌, ◌*◌, length, get_or, pos, All};
ghost use Rattle.kc_expr.specs.Lists.{texts};
ghost use Rattle.kc_expr.specs.Values.{fields_of, leaves, value, IsWord, size};
ghost use Rattle.kc_expr.specs.Views.{shape};
ghost use Rattle.kc_expr.specs.Exprs.{tree_of};

use crate::expr::Expr;
use crate::fields::place_of;
use crate::tree::Node;
use crate::value::{applied, is_true, truth};

// The value of the path with this place; a place behind the values has 0.
fn value_at(values: &[i128], place: usize) -> i128
    requires { All IsWord values.now }
    ensures value { result ≡ get_or values.now place (pos 0) }
    ensures size { size result < 2 ^ 64 }
{
    if place < values.len() {
        values[place]
    } else {
        0
    }
}

// The value of a tree, and how large it is at most.
fn value_of(node: &Node, paths: &[Vec<u8>], values: &[i128]) -> i128
    requires small { leaves (shape node.now) ≤ 256 }
    requires words { All IsWord values.now }
    ensures value { result ≡ value (texts paths.now) values.now (shape node.now) }
    ensures size { size result < 2 ^ 64 * leaves (shape node.now) }
{
    match node {
        Node::Literal(n) => i128::from(*n),
        Node::Field(path) => value_at(values, place_of(paths, path)),
        Node::Negation(below) => truth(!is_true(value_of(below, paths, values))),
        Node::Group(below) => value_of(below, paths, values),
        Node::Binary(op, left, right) => {
            let x = value_of(left, paths, values);
            let y = value_of(right, paths, values);
            applied(*op, x, y)
        }
    }
}

/// The value of a check, where its paths have these values. It takes no memory, and no sum on the way overflows.
pub fn eval(expr: &Expr, values: &[i128]) -> i128
    requires count { length values.now ≡ length (fields_of (tree_of expr.now)) }
    requires words { All IsWord values.now }
    ensures { result ≡ value (fields_of (tree_of expr.now)) values.now (tree_of expr.now) }
{
    value_of(&expr.root, &expr.paths, values)
}
