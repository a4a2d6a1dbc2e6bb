// The token that is begun, byte by byte.
ghost use Rattle.std.specs.Prelude.{◌≡◌, ◌<◌, ◌++◌, [], ◌∷◌, IfOk, Option, Some, None, option_map, nat_lt, if◌then◌else◌, ◌&&◌, ◌+◌, ◌*◌, ◌-◌, ◌^◌};
ghost use Rattle.kc_word.specs.Hex.{digit_value};
ghost use Rattle.kc_layout.specs.Path.{is_digit, is_letter, is_word};
ghost use Rattle.kc_expr.specs.Machine.{extend, longer, more_decimal, more_hex, more_path, behind_step};
ghost use Rattle.kc_expr.specs.Machine.Mark.{in_index, behind_minus};
ghost use Rattle.kc_expr.specs.Machine.Piece.{path_part};
ghost use Rattle.kc_expr.specs.Views.{piece_of, mark_of, GoesOn, PathGoesOn};

use crate::token::Token;
use crate::tree::Operator;
use kc_word::NoMemory;
use std::alloc::Global;

// Where in a path its text ends.
#[derive(Clone, Copy)]
pub(crate) enum Mark {
    InName,
    // Behind `.` or `->`.
    BeforeName,
    // Behind `[` and so many digits.
    InIndex(u8),
    BehindIndex,
    // The `-` isn't kept: it begins `->`, or is an operator.
    BehindMinus,
}

#[derive(Drop)]
pub(crate) enum Piece {
    // Nothing yet, not even a space.
    Start,
    // A space behind the last token.
    Gap,
    // One that nothing goes on.
    Whole(Token),
    // An operator that is another one with a second byte.
    Short(Operator, Operator, u8),
    // The first half of an operator that ends in `=`.
    Half(Operator),
    // `0`
    Zero,
    Decimal(u64),
    // `0x`
    HexMark,
    Hex(u64),
    Path(Mark, Vec<u8>),
}

pub(crate) fn is_digit(c: u8) -> bool
    ensures { result ≡ is_digit c }
{
    c.is_ascii_digit()
}

pub(crate) fn is_letter(c: u8) -> bool
    ensures { result ≡ is_letter c }
{
    matches!(c, b'A'..=b'Z' | b'_' | b'a'..=b'z')
}

pub(crate) fn is_word(c: u8) -> bool
    ensures { result ≡ is_word c }
{
    is_letter(c) || is_digit(c)
}

// The number with one more decimal digit, while it stays below 2^64.
fn more_decimal(n: u64, c: u8) -> Option<Piece>
    ensures { option_map piece_of result ≡ more_decimal n c }
{
    if !is_digit(c) {
        return None;
    }
    let n = n.checked_mul(10)?.checked_add(u64::from(c - b'0'))?;
    Some(Piece::Decimal(n))
}

// What a hex digit of either case is worth.
fn digit_value(c: u8) -> Option<u8>
    ensures value { result ≡ digit_value c }
{
    match c {
        b'0'..=b'9' => Some(c - b'0'),
        b'a'..=b'f' => Some(c - 87),
        b'A'..=b'F' => Some(c - 55),
        _ => None,
    }
}

// The number with one more hex digit, while it stays below 2^64.
fn more_hex(n: u64, c: u8) -> Option<Piece>
    ensures { option_map piece_of result ≡ more_hex n (digit_value c) }
{
    let digit = digit_value(c)?;
    let n = n.checked_mul(16)?.checked_add(u64::from(digit))?;
    Some(Piece::Hex(n))
}

// A path with a byte more, and where it ends then.
fn with_byte(text: &mut Vec<u8>, next: Mark, c: u8) -> Result<Option<Mark>, NoMemory>
    ensures { IfOk result (PathGoesOn text.old.items (Some (path_part (mark_of next) (text.old.items ++ c ∷ []))) text.new.items) }
{
    text.push(c)?;
    Ok(Some(next))
}

// A step of a path begins, or the path ends.
fn behind_step(text: &mut Vec<u8>, c: u8) -> Result<Option<Mark>, NoMemory>
    ensures { IfOk result (PathGoesOn text.old.items (behind_step text.old.items c) text.new.items) }
{
    match c {
        b'.' => with_byte(text, Mark::BeforeName, c),
        b'[' => with_byte(text, Mark::InIndex(0), c),
        b'-' => Ok(Some(Mark::BehindMinus)),
        _ => Ok(None),
    }
}

// An index goes on by a digit, or ends by its bracket.
fn in_index(digits: u8, text: &mut Vec<u8>, c: u8) -> Result<Option<Mark>, NoMemory>
    ensures { IfOk result (PathGoesOn text.old.items (more_path (in_index digits) text.old.items c) text.new.items) }
{
    if is_digit(c) {
        if digits < 10 {
            return with_byte(text, Mark::InIndex(digits + 1), c);
        }
    } else if c == b']' && digits > 0 {
        return with_byte(text, Mark::BehindIndex, c);
    }
    Ok(None)
}

// A pointer is followed where `>` stands behind the `-`.
fn behind_minus(text: &mut Vec<u8>, c: u8) -> Result<Option<Mark>, NoMemory>
    ensures { IfOk result (PathGoesOn text.old.items (more_path behind_minus text.old.items c) text.new.items) }
{
    if c != b'>' {
        return Ok(None);
    }
    text.extend_from_slice(b"->")?;
    Ok(Some(Mark::BeforeName))
}

// A path goes on, or ends.
fn more_path(mark: Mark, text: &mut Vec<u8>, c: u8) -> Result<Option<Mark>, NoMemory>
    ensures { IfOk result (PathGoesOn text.old.items (more_path (mark_of mark) text.old.items c) text.new.items) }
{
    match mark {
        Mark::InName => {
            if is_word(c) {
                with_byte(text, Mark::InName, c)
            } else {
                behind_step(text, c)
            }
        }
        Mark::BeforeName => {
            if is_letter(c) {
                with_byte(text, Mark::InName, c)
            } else {
                Ok(None)
            }
        }
        Mark::InIndex(digits) => in_index(digits, text, c),
        Mark::BehindIndex => behind_step(text, c),
        Mark::BehindMinus => behind_minus(text, c),
    }
}

// What a piece that is no path is with a byte more, where it goes on.
fn longer(piece: &Piece, c: u8) -> Option<Piece>
    ensures { option_map piece_of result ≡ longer (piece_of piece.now) c }
{
    match piece {
        Piece::Short(_, long, second) => {
            if c == *second {
                Some(Piece::Whole(Token::Operator(*long)))
            } else {
                None
            }
        }
        Piece::Half(op) => {
            if c == b'=' {
                Some(Piece::Whole(Token::Operator(*op)))
            } else {
                None
            }
        }
        Piece::Zero => {
            if c == b'x' {
                Some(Piece::HexMark)
            } else {
                more_decimal(0, c)
            }
        }
        Piece::Decimal(n) => more_decimal(*n, c),
        Piece::HexMark => more_hex(0, c),
        Piece::Hex(n) => more_hex(*n, c),
        Piece::Start | Piece::Gap | Piece::Whole(_) | Piece::Path(_, _) => None,
    }
}

// A piece goes on by a byte, as `true` says, or it ends and stays.
pub(crate) fn extend(piece: &mut Piece, c: u8) -> Result<bool, NoMemory>
    ensures { IfOk result (GoesOn (piece_of piece.old) (extend (piece_of piece.old) c) (piece_of piece.new)) }
{
    if let Piece::Path(mark, text) = piece {
        return match more_path(*mark, text, c)? {
            Some(next) => {
                *mark = next;
                Ok(true)
            }
            None => Ok(false),
        };
    }
    match longer(piece, c) {
        Some(more) => {
            *piece = more;
            Ok(true)
        }
        None => Ok(false),
    }
}
