// Checks from their texts.
ghost use Rattle.std.specs.Prelude.{◌≤◌, length, IfOk, IfErr, IfSome};
ghost use Rattle.kc_word.specs.Answers.{GivesTold};
ghost use Rattle.kc_expr.specs.Exprs.{tree_of};
ghost use Rattle.kc_expr.specs.Machine.{parsed};
ghost use Rattle.kc_expr.specs.Spelling.{IsText, IsFault};
ghost use Rattle.kc_expr.specs.Told.{place_of};

use crate::expr::Expr;
use crate::fields::list_fields;
use crate::piece::Piece;
use crate::reader::{Reader, read};
use crate::stack::Stack;
use crate::state::State;
use crate::stop::ExprStop;
use std::alloc::Global;

/// Reads a check. Its text has at most 256 bytes.
///
/// # Errors
///
/// `X1` where the text is no check, with the length of the longest front of it that begins one; `NoMemory`.
pub fn parse(alloc: Global, text: &[u8]) -> Result<Expr, ExprStop>
    requires { length text.now ≤ 256 }
    ensures tree { IfOk result (λ expr. IsText text.now (tree_of expr)) }
    ensures fault { IfErr result (λ stop. IfSome (place_of stop) (IsFault text.now)) }
    // The same as a function of the bytes, for definitions that read checks.
    ensures exact { GivesTold place_of tree_of result (parsed text.now) }
{
    let mut reader = Reader {
        state: State::Want(Stack::Bottom),
        piece: Piece::Start,
    };
    let root = read(alloc, text, 0, &mut reader)?;
    let mut paths = Vec::new(alloc);
    list_fields(alloc, &mut paths, &root)?;
    Ok(Expr { root, paths })
}
