// Reading byte by byte.
ghost use Rattle.std.specs.Prelude.{◌≡◌, ℕ, ◌+◌, ◌<◌, ◌≤◌, ◌^◌, [], ◌∷◌, length, drop, IfOk, Some, None, option_map, option_and_then, if◌then◌else◌};
ghost use Rattle.kc_word.specs.Answers.{GivesTold};
ghost use Rattle.kc_layout.specs.Path.{word_length};
ghost use Rattle.kc_expr.specs.Machine.{step, settle, settle_path, begin_unit, begin_operator, begin_comparison, begin_token, next_token, result_of, read, room, is_start, is_gap};
ghost use Rattle.kc_expr.specs.Machine.Mark.{in_name};
ghost use Rattle.kc_expr.specs.Machine.Piece.{path_part, whole};
ghost use Rattle.kc_expr.specs.Views.{shape, stack_of, state_of, token_of, mark_of, piece_of, reading_of, Follows};
ghost use Rattle.kc_expr.specs.Told.{place_of};

use crate::piece::{Mark, Piece, extend, is_digit, is_letter, is_word};
use crate::stack::{Stack, compares, has_open, has_room};
use crate::state::{OPEN_MOST, State, take_token, tree_at};
use crate::stop::ExprStop;
use crate::token::Token;
use crate::tree::{Node, Operator};
use kc_word::NoMemory;
use std::alloc::Global;
use std::mem;

// The tokens that were read, and the one that is begun.
#[derive(Drop)]
pub(crate) struct Reader {
    pub state: State,
    pub piece: Piece,
}

// The tokens up to the end of a path, and a `-` behind it.
fn settle_path(
    alloc: Global,
    state: &mut State,
    mark: Mark,
    text: Vec<u8>,
) -> Result<bool, NoMemory>
    ensures { IfOk result (Follows (settle_path (state_of state.old) (mark_of mark) text.items) (state_of state.new)) }
{
    match mark {
        Mark::InName => take_token(alloc, state, Token::Path(text)),
        Mark::BehindIndex => take_token(alloc, state, Token::Path(text)),
        Mark::BehindMinus => {
            if take_token(alloc, state, Token::Path(text))? {
                take_token(alloc, state, Token::Operator(Operator::Minus))
            } else {
                Ok(false)
            }
        }
        Mark::BeforeName => Ok(false),
        Mark::InIndex(_) => Ok(false),
    }
}

// The tokens up to the end of the one that is begun. False where it may not end here, and then nothing is said of
// the state.
fn settle(alloc: Global, state: &mut State, piece: Piece) -> Result<bool, NoMemory>
    ensures { IfOk result (Follows (settle (state_of state.old) (piece_of piece)) (state_of state.new)) }
{
    match piece {
        Piece::Start => Ok(true),
        Piece::Gap => Ok(true),
        Piece::Whole(token) => take_token(alloc, state, token),
        Piece::Short(op, _, _) => take_token(alloc, state, Token::Operator(op)),
        Piece::Half(_) => Ok(false),
        Piece::Zero => take_token(alloc, state, Token::Literal(0)),
        Piece::Decimal(n) => take_token(alloc, state, Token::Literal(n)),
        Piece::HexMark => Ok(false),
        Piece::Hex(n) => take_token(alloc, state, Token::Literal(n)),
        Piece::Path(mark, text) => settle_path(alloc, state, mark, text),
    }
}

// A path that begins.
fn begin_path(alloc: Global, c: u8) -> Result<Piece, NoMemory>
    ensures { IfOk result (λ p. piece_of p ≡ path_part in_name (c ∷ [])) }
{
    let mut text = Vec::new(alloc);
    text.push(c)?;
    Ok(Piece::Path(Mark::InName, text))
}

// A `!` or a parenthesis that is opened, where there is room for it.
fn opened(stack: &Stack, token: Token) -> Option<Piece>
    ensures { option_map piece_of result ≡ (if room (stack_of stack.now) then Some (whole (token_of token)) else None) }
{
    if has_room(stack, OPEN_MOST) {
        Some(Piece::Whole(token))
    } else {
        None
    }
}

// The token that a byte begins where a unit is wanted.
fn begin_unit(alloc: Global, stack: &Stack, c: u8) -> Result<Option<Piece>, NoMemory>
    ensures { IfOk result (λ o. option_map piece_of o ≡ begin_unit (stack_of stack.now) c) }
{
    if c == b'!' {
        return Ok(opened(stack, Token::Not));
    }
    if c == b'(' {
        return Ok(opened(stack, Token::Open));
    }
    if c == b'0' {
        return Ok(Some(Piece::Zero));
    }
    if is_digit(c) {
        return Ok(Some(Piece::Decimal(u64::from(c - b'0'))));
    }
    if !is_letter(c) {
        return Ok(None);
    }
    Ok(Some(begin_path(alloc, c)?))
}

// The comparison that a byte begins.
fn begin_comparison(c: u8) -> Option<Piece>
    ensures { option_map piece_of result ≡ begin_comparison c }
{
    match c {
        b'<' => Some(Piece::Short(Operator::Less, Operator::LessEqual, b'=')),
        b'>' => Some(Piece::Short(Operator::Greater, Operator::GreaterEqual, b'=')),
        b'=' => Some(Piece::Half(Operator::Equal)),
        b'!' => Some(Piece::Half(Operator::NotEqual)),
        _ => None,
    }
}

// The token that a byte begins behind a unit.
fn begin_operator(stack: &Stack, c: u8) -> Option<Piece>
    ensures { option_map piece_of result ≡ begin_operator (stack_of stack.now) c }
{
    match c {
        b')' => {
            if has_open(stack) {
                Some(Piece::Whole(Token::Close))
            } else {
                None
            }
        }
        b'+' => Some(Piece::Whole(Token::Operator(Operator::Plus))),
        b'-' => Some(Piece::Whole(Token::Operator(Operator::Minus))),
        b'^' => Some(Piece::Whole(Token::Operator(Operator::BitXor))),
        b'&' => Some(Piece::Short(Operator::BitAnd, Operator::Both, b'&')),
        b'|' => Some(Piece::Short(Operator::BitOr, Operator::Either, b'|')),
        _ => {
            if compares(stack) {
                None
            } else {
                begin_comparison(c)
            }
        }
    }
}

// The token that a byte begins.
fn begin_token(alloc: Global, state: &State, c: u8) -> Result<Option<Piece>, NoMemory>
    ensures { IfOk result (λ o. option_map piece_of o ≡ begin_token (state_of state.now) c) }
{
    match state {
        State::Want(stack) => begin_unit(alloc, stack, c),
        State::After(_, stack) => Ok(begin_operator(stack, c)),
    }
}

// A byte behind the token that ended; `first` says that there is none. False where it may not stand there.
fn next_token(alloc: Global, first: bool, c: u8, reader: &mut Reader) -> Result<bool, NoMemory>
    ensures { IfOk result (Follows (next_token first c (state_of reader.old.state)) (reading_of reader.new)) }
{
    if c == b' ' {
        if first {
            return Ok(false);
        }
        reader.piece = Piece::Gap;
        return Ok(true);
    }
    match begin_token(alloc, &reader.state, c)? {
        Some(piece) => {
            reader.piece = piece;
            Ok(true)
        }
        None => Ok(false),
    }
}

fn is_start(piece: &Piece) -> bool
    ensures { result ≡ is_start (piece_of piece.now) }
{
    matches!(piece, Piece::Start)
}

fn is_gap(piece: &Piece) -> bool
    ensures { result ≡ is_gap (piece_of piece.now) }
{
    matches!(piece, Piece::Gap)
}

// A byte behind a token, which ends here. False where it may not stand there.
fn end_token(alloc: Global, reader: &mut Reader, c: u8) -> Result<bool, NoMemory>
    ensures { IfOk result (Follows (option_and_then (next_token (is_start (piece_of reader.old.piece)) c) (settle (state_of reader.old.state) (piece_of reader.old.piece))) (reading_of reader.new)) }
{
    let first = is_start(&reader.piece);
    let piece = mem::replace(&mut reader.piece, Piece::Gap);
    if settle(alloc, &mut reader.state, piece)? {
        next_token(alloc, first, c, reader)
    } else {
        Ok(false)
    }
}

// One byte more. False where no check goes on so, and then nothing is said of the reader.
#[tactic(auto, unfolding(crate::specs::Machine::step))]
fn step(alloc: Global, reader: &mut Reader, c: u8) -> Result<bool, NoMemory>
    ensures { IfOk result (Follows (step (reading_of reader.old) c) (reading_of reader.new)) }
{
    if extend(&mut reader.piece, c)? {
        Ok(true)
    } else {
        end_token(alloc, reader, c)
    }
}

// The tree of a text that ends here. Nothing is said of the reader then.
#[tactic(auto, unfolding(crate::specs::Machine::result_of))]
fn result_of(alloc: Global, reader: &mut Reader) -> Result<Option<Node>, NoMemory>
    ensures { IfOk result (λ o. option_map shape o ≡ result_of (reading_of reader.old)) }
{
    if is_gap(&reader.piece) {
        return Ok(None);
    }
    let piece = mem::replace(&mut reader.piece, Piece::Gap);
    if settle(alloc, &mut reader.state, piece)? {
        let state = mem::replace(&mut reader.state, State::Want(Stack::Bottom));
        tree_at(alloc, state)
    } else {
        Ok(None)
    }
}

// How many bytes of a name a text begins with.
fn word_length(text: &[u8]) -> usize
    ensures exact { result ≡ word_length text.now }
    ensures within { result ≤ length text.now }
{
    match text {
        [] => 0,
        [c, rest @ ..] => {
            if is_word(*c) {
                1 + word_length(rest)
            } else {
                0
            }
        }
    }
}

// Takes at once the bytes of a text by which a name goes on, and says how many they are.
fn take_name(reader: &mut Reader, text: &[u8]) -> Result<usize, NoMemory>
    ensures within { IfOk result (λ taken. taken ≤ length text.now) }
    ensures same { IfOk result (λ taken. (at : ℕ) → read text.now at (reading_of reader.old) ≡ read (drop taken text.now) (at + taken) (reading_of reader.new)) }
{
    match &mut reader.piece {
        Piece::Path(Mark::InName, name) => {
            let taken = word_length(text);
            name.extend_from_slice(&text[..taken])?;
            Ok(taken)
        }
        _ => Ok(0),
    }
}

// The tree of the rest of a text. `at` is the place of the rest. Nothing is said of the reader then.
#[tactic(auto, unfolding(crate::specs::Machine::read))]
pub(crate) fn read(
    alloc: Global,
    text: &[u8],
    at: u32,
    reader: &mut Reader,
) -> Result<Node, ExprStop>
    requires { at + length text.now < 2 ^ 32 }
    ensures { GivesTold place_of shape result (read text.now at (reading_of reader.old)) }
{
    match text {
        [] => match result_of(alloc, reader)? {
            Some(tree) => Ok(tree),
            None => Err(ExprStop::X1(at)),
        },
        [c, rest @ ..] => {
            if !step(alloc, reader, *c)? {
                return Err(ExprStop::X1(at));
            }
            let taken = take_name(reader, rest)?;
            read(alloc, &rest[taken..], at + 1 + taken as u32, reader)
        }
    }
}
