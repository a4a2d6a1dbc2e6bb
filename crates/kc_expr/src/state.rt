// Reading token by token.
ghost use Rattle.std.specs.Prelude.{◌≡◌, IfOk, Option, Some, None, option_map};
ghost use Rattle.kc_expr.specs.Machine.{take_token, tree_at, behind_open, finished, with_operator, reduce};
ghost use Rattle.kc_expr.specs.Tree.{left_rank};
ghost use Rattle.kc_expr.specs.Tree.Token.{operator};
ghost use Rattle.kc_expr.specs.declared.state.State.TheVariants.{Want, After};
ghost use Rattle.kc_expr.specs.Views.{shape, stack_of, state_of, token_of, Follows};

use crate::stack::{Stack, compares, has_room, is_alone, left_rank, reduce};
use crate::token::Token;
use crate::tree::{Node, Operator};
use kc_word::NoMemory;
use std::alloc::Global;
use std::mem;

// How many parentheses and `!` may be open at once.
pub(crate) const OPEN_MOST: u8 = 16;

#[derive(Drop)]
pub(crate) enum State {
    // A unit is wanted.
    Want(Stack),
    // A unit was read.
    After(Node, Stack),
}

// One token more where a unit is wanted.
fn take_unit(alloc: Global, stack: Stack, token: Token) -> Result<Option<State>, NoMemory>
    ensures { IfOk result (λ o. option_map state_of o ≡ take_token (state_of (Want stack)) (token_of token)) }
{
    match token {
        Token::Not => {
            if has_room(&stack, OPEN_MOST) {
                Ok(Some(State::Want(Stack::Not(Box::new(alloc, stack)?))))
            } else {
                Ok(None)
            }
        }
        Token::Open => {
            if has_room(&stack, OPEN_MOST) {
                Ok(Some(State::Want(Stack::Open(Box::new(alloc, stack)?))))
            } else {
                Ok(None)
            }
        }
        Token::Literal(n) => Ok(Some(State::After(Node::Literal(n), stack))),
        Token::Path(text) => Ok(Some(State::After(Node::Field(text), stack))),
        Token::Close => Ok(None),
        Token::Operator(_) => Ok(None),
    }
}

// A parenthesis closed behind a tree.
fn close(alloc: Global, tree: Node, stack: Stack) -> Result<Option<State>, NoMemory>
    ensures { IfOk result (λ o. option_map state_of o ≡ behind_open (shape tree) (stack_of stack)) }
{
    match stack {
        Stack::Open(below) => {
            let group = Node::Group(Box::new(alloc, tree)?);
            Ok(Some(State::After(group, Box::into_inner(below))))
        }
        _ => Ok(None),
    }
}

// An operator behind a unit.
fn take_operator(
    alloc: Global,
    unit: Node,
    stack: Stack,
    op: Operator,
) -> Result<Option<State>, NoMemory>
    ensures { IfOk result (λ o. option_map state_of o ≡ take_token (state_of (After unit stack)) (operator op)) }
{
    if is_alone(op) && compares(&stack) {
        return Ok(None);
    }
    let (left, below) = reduce(alloc, left_rank(op), stack, unit)?;
    Ok(Some(State::Want(Stack::Left(op, left, Box::new(alloc, below)?))))
}

// One token more behind a unit.
fn take_after(
    alloc: Global,
    unit: Node,
    stack: Stack,
    token: Token,
) -> Result<Option<State>, NoMemory>
    ensures { IfOk result (λ o. option_map state_of o ≡ take_token (state_of (After unit stack)) (token_of token)) }
{
    match token {
        Token::Close => {
            let (tree, below) = reduce(alloc, 0, stack, unit)?;
            close(alloc, tree, below)
        }
        Token::Operator(op) => take_operator(alloc, unit, stack, op),
        Token::Not => Ok(None),
        Token::Open => Ok(None),
        Token::Literal(_) => Ok(None),
        Token::Path(_) => Ok(None),
    }
}

// One token more. False where it may not stand there, and then nothing is said of the state.
pub(crate) fn take_token(alloc: Global, state: &mut State, token: Token) -> Result<bool, NoMemory>
    ensures { IfOk result (Follows (take_token (state_of state.old) (token_of token)) (state_of state.new)) }
{
    let next = match mem::replace(state, State::Want(Stack::Bottom)) {
        State::Want(stack) => take_unit(alloc, stack, token)?,
        State::After(unit, stack) => take_after(alloc, unit, stack, token)?,
    };
    match next {
        Some(next) => {
            *state = next;
            Ok(true)
        }
        None => Ok(false),
    }
}

// The tree where nothing stands open.
fn finished(tree: Node, stack: Stack) -> Option<Node>
    ensures { option_map shape result ≡ finished (shape tree) (stack_of stack) }
{
    match stack {
        Stack::Bottom => Some(tree),
        _ => None,
    }
}

// The tree of a check that ends here.
pub(crate) fn tree_at(alloc: Global, state: State) -> Result<Option<Node>, NoMemory>
    ensures { IfOk result (λ o. option_map shape o ≡ tree_at (state_of state)) }
{
    match state {
        State::Want(_) => Ok(None),
        State::After(unit, stack) => {
            let (tree, below) = reduce(alloc, 0, stack, unit)?;
            Ok(finished(tree, below))
        }
    }
}
