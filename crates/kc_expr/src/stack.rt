// What stands open before the unit that is read.
ghost use Rattle.std.specs.Prelude.{◌≡◌, nat_lt, IfOk};
ghost use Rattle.kc_expr.specs.Tree.{rank_of, left_rank};
ghost use Rattle.kc_expr.specs.Machine.{count_open, has_open, compares, is_alone, reduce};
ghost use Rattle.kc_expr.specs.Views.{shape, stack_of, reduced};

use crate::tree::{Node, Operator};
use kc_word::NoMemory;
use std::alloc::Global;

// The last that was opened first.
#[derive(Drop)]
pub(crate) enum Stack {
    Bottom,
    // `!`
    Not(Box<Stack>),
    // A parenthesis.
    Open(Box<Stack>),
    // A left operand and its operator.
    Left(Operator, Node, Box<Stack>),
}

// How tight an operator binds.
pub(crate) fn rank_of(op: Operator) -> u8
    ensures { result ≡ rank_of op }
{
    match op {
        Operator::Either => 0,
        Operator::Both => 1,
        Operator::Equal => 2,
        Operator::NotEqual => 2,
        Operator::LessEqual => 2,
        Operator::GreaterEqual => 2,
        Operator::Less => 2,
        Operator::Greater => 2,
        Operator::Plus => 3,
        Operator::Minus => 3,
        Operator::BitAnd => 3,
        Operator::BitOr => 3,
        Operator::BitXor => 3,
    }
}

// How tight the operators of its left operand have to bind.
pub(crate) fn left_rank(op: Operator) -> u8
    ensures { result ≡ left_rank op }
{
    match op {
        Operator::Either => 0,
        Operator::Both => 1,
        Operator::Equal => 3,
        Operator::NotEqual => 3,
        Operator::LessEqual => 3,
        Operator::GreaterEqual => 3,
        Operator::Less => 3,
        Operator::Greater => 3,
        Operator::Plus => 3,
        Operator::Minus => 3,
        Operator::BitAnd => 3,
        Operator::BitOr => 3,
        Operator::BitXor => 3,
    }
}

// Whether it doesn't group.
pub(crate) fn is_alone(op: Operator) -> bool
    ensures { result ≡ is_alone op }
{
    rank_of(op) == 2
}

// Whether fewer than so many are open.
pub(crate) fn has_room(stack: &Stack, most: u8) -> bool
    ensures { result ≡ nat_lt (count_open (stack_of stack.now)) most }
{
    match stack {
        Stack::Bottom => most > 0,
        Stack::Not(below) => most > 0 && has_room(below, most - 1),
        Stack::Open(below) => most > 0 && has_room(below, most - 1),
        Stack::Left(_, _, below) => has_room(below, most),
    }
}

// Whether a parenthesis is open.
pub(crate) fn has_open(stack: &Stack) -> bool
    ensures { result ≡ has_open (stack_of stack.now) }
{
    match stack {
        Stack::Bottom => false,
        Stack::Not(below) => has_open(below),
        Stack::Open(_) => true,
        Stack::Left(_, _, below) => has_open(below),
    }
}

// Whether the right operand of a comparison is read.
pub(crate) fn compares(stack: &Stack) -> bool
    ensures { result ≡ compares (stack_of stack.now) }
{
    match stack {
        Stack::Bottom => false,
        Stack::Not(below) => compares(below),
        Stack::Open(_) => false,
        Stack::Left(op, _, below) => {
            if rank_of(*op) >= 3 {
                compares(below)
            } else {
                is_alone(*op)
            }
        }
    }
}

// A tree with all before it that binds at least so tight, and what stands open then.
pub(crate) fn reduce(
    alloc: Global,
    least: u8,
    stack: Stack,
    tree: Node,
) -> Result<(Node, Stack), NoMemory>
    ensures { IfOk result (λ r. reduced r ≡ reduce least (shape tree) (stack_of stack)) }
{
    match stack {
        Stack::Bottom => Ok((tree, Stack::Bottom)),
        Stack::Open(below) => Ok((tree, Stack::Open(below))),
        Stack::Not(below) => {
            let tree = Node::Negation(Box::new(alloc, tree)?);
            reduce(alloc, least, Box::into_inner(below), tree)
        }
        Stack::Left(op, left, below) => {
            if least > rank_of(op) {
                return Ok((tree, Stack::Left(op, left, below)));
            }
            let tree = Node::Binary(op, Box::new(alloc, left)?, Box::new(alloc, tree)?);
            reduce(alloc, least, Box::into_inner(below), tree)
        }
    }
}
