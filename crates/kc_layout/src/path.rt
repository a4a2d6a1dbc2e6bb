// The text of a path.
ghost use Rattle.std.specs.Prelude.{◌≡◌, ◌+◌, ◌-◌, ◌≤◌, length, not, position, option_map, is_some, IfSome};
ghost use Rattle.kc_layout.specs.Path.{is_digit, is_letter, is_word, begins_name, word_length, digits_length, name_cut, natural, index_of, behind_bracket, index_cut, by, cut, cut_arrow, path_steps};
ghost use Rattle.kc_layout.specs.PathViews.{cut_view, names_view, index_view};
ghost use Rattle.kc_layout.specs.Path.Step.{Member, Element};
ghost use Rattle.kc_layout.specs.Spelling.{PathsAreSpelled};

use kc_word::read_dec;

/// How many bytes a path has at most, and so how many steps.
pub(crate) const PATH_BYTES: u32 = 256;

// A step of a path.
#[derive(Clone, Copy, Debug, PartialEq, Eq)]
pub(crate) enum Step<'p> {
    // A member of a struct or union.
    Member(&'p [u8]),
    // An element of an array.
    Element(u64),
    // A member of what a pointer points to.
    Pointee(&'p [u8]),
}

// A step with the text behind it.
#[derive(Clone, Copy, Debug, PartialEq, Eq)]
pub(crate) struct Cut<'p> {
    pub step: Step<'p>,
    pub rest: &'p [u8],
}

fn is_digit(c: u8) -> bool
    ensures { result ≡ is_digit c }
{
    matches!(c, b'0'..=b'9')
}

fn is_letter(c: u8) -> bool
    ensures { result ≡ is_letter c }
{
    matches!(c, b'A'..=b'Z' | b'_' | b'a'..=b'z')
}

fn is_word(c: u8) -> bool
    ensures { result ≡ is_word c }
{
    is_letter(c) || is_digit(c)
}

fn begins_name(text: &[u8]) -> bool
    ensures { result ≡ begins_name text.now }
{
    match text {
        [c, ..] => is_letter(*c),
        [] => false,
    }
}

// Where the name that a text begins with ends before the text does.
fn name_end(text: &[u8]) -> Option<usize>
    ensures exact { result ≡ position (λ c. not (is_word c)) text.now }
    ensures within { IfSome result (λ end. end ≤ length text.now) }
{
    text.iter().position(|c| !is_word(*c))
}

// How many bytes of a name a text begins with.
fn word_length(text: &[u8]) -> usize
    ensures exact { result ≡ word_length text.now }
    ensures within { result ≤ length text.now }
{
    match name_end(text) {
        Some(end) => end,
        None => text.len(),
    }
}

// Where the digits that a text begins with end before the text does.
fn digits_end(text: &[u8]) -> Option<usize>
    ensures exact { result ≡ position (λ c. not (is_digit c)) text.now }
    ensures within { IfSome result (λ end. end ≤ length text.now) }
{
    text.iter().position(|c| !is_digit(*c))
}

// How many digits a text begins with.
fn digits_length(text: &[u8]) -> usize
    ensures exact { result ≡ digits_length text.now }
    ensures within { result ≤ length text.now }
{
    match digits_end(text) {
        Some(end) => end,
        None => text.len(),
    }
}

// The name that a text begins with, and the text behind it.
fn name_cut(text: &[u8]) -> Option<(&[u8], &[u8])>
    ensures { option_map names_view result ≡ name_cut text.now }
{
    if begins_name(text) {
        Some(text.split_at(word_length(text)))
    } else {
        None
    }
}

// The index that 1 to 10 digits write.
fn index_of(digits: &[u8]) -> Option<u64>
    ensures { result ≡ index_of digits.now }
{
    if digits.len() > 10 {
        return None;
    }
    natural(read_dec(digits)?)
}

// A number that isn't below zero.
fn natural(number: i64) -> Option<u64>
    ensures { result ≡ natural number }
{
    if number >= 0 {
        Some(number as u64)
    } else {
        None
    }
}

// The text behind a `]`.
fn behind_bracket(text: &[u8]) -> Option<&[u8]>
    ensures { option_map (λ rest. rest.now) result ≡ behind_bracket text.now }
{
    match text {
        [b']', rest @ ..] => Some(rest),
        _ => None,
    }
}

// The index that a text begins with, and the text behind its `]`.
fn index_cut(text: &[u8]) -> Option<(u64, &[u8])>
    ensures { option_map index_view result ≡ index_cut text.now }
{
    let (digits, behind) = text.split_at(digits_length(text));
    let index = index_of(digits)?;
    let rest = behind_bracket(behind)?;
    Some((index, rest))
}

// A step to a member by a name that was cut off.
fn member_cut(text: &[u8]) -> Option<Cut<'_>>
    ensures { option_map cut_view result ≡ by (λ name. Member name) (name_cut text.now) }
{
    let (name, rest) = name_cut(text)?;
    Some(Cut {
        step: Step::Member(name),
        rest,
    })
}

// A step to an element.
fn element_cut(text: &[u8]) -> Option<Cut<'_>>
    ensures { option_map cut_view result ≡ by (λ index. Element index) (index_cut text.now) }
{
    let (index, rest) = index_cut(text)?;
    Some(Cut {
        step: Step::Element(index),
        rest,
    })
}

// A step through a pointer, behind its `-`.
fn pointee_cut(text: &[u8]) -> Option<Cut<'_>>
    ensures { option_map cut_view result ≡ cut_arrow text.now }
{
    match text {
        [b'>', text @ ..] => {
            let (name, rest) = name_cut(text)?;
            Some(Cut {
                step: Step::Pointee(name),
                rest,
            })
        }
        _ => None,
    }
}

// The step that a text begins with; a path's first step is a name alone.
pub(crate) fn cut_step(text: &[u8], first: bool) -> Option<Cut<'_>>
    ensures { option_map cut_view result ≡ cut first text.now }
{
    if first {
        return member_cut(text);
    }
    match text {
        [b'.', text @ ..] => member_cut(text),
        [b'[', text @ ..] => element_cut(text),
        [b'-', text @ ..] => pointee_cut(text),
        _ => None,
    }
}

// Whether a text is a path.
pub(crate) fn is_path(path: &[u8]) -> bool
    ensures { result ≡ is_some (path_steps path.now) }
{
    if path.len() > PATH_BYTES as usize {
        return false;
    }
    let mut rest = path;
    for taken in 0..PATH_BYTES {
        if rest.is_empty() {
            return true;
        }
        match cut_step(rest, taken == 0) {
            Some(cut) => rest = cut.rest,
            None => return false,
        }
    }
    rest.is_empty()
}

/// Does nothing, and tells a proof what the text of a path is: a text of at most 256 bytes is a path exactly where
/// it is its steps written one after another, as `name`, `.name`, `[decimal]` and `->name`. So each path has its
/// steps back from its text, and no text is two paths.
pub fn know_paths()
    ensures { PathsAreSpelled }
{}
