// Hex text, as the reports print it and the command line gives it.
ghost use Rattle.std.specs.Prelude.{◌≡◌, ◌≤◌, ◌<◌, length, Some, IfSome};
ghost use Rattle.kc_word.specs.Hex.{digits_of, hex_digit, hex_digits, hex_number, hex_from, digit_value};

/// The 16 hex digits of a number: lower case, with leading zeros.
pub fn hex16(n: u64) -> [u8; 16]
    ensures digits { result ≡ hex_digits 16 n }
    ensures reads_back { hex_number result ≡ Some n }
{
    let mut text = [0; 16];
    let mut left = n;
    let mut at = 16;
    while at > 0 {
        at -= 1;
        text[at] = digit_of((left % 16) as u8);
        left /= 16;
    }
    text
}

// The character of a digit.
fn digit_of(digit: u8) -> u8
    requires { digit < 16 }
    ensures { result ≡ hex_digit digit }
{
    if digit < 10 {
        b'0' + digit
    } else {
        b'a' + (digit - 10)
    }
}

/// The number that a text writes in hex: an optional `0x`, then 1 to 16 digits of either case. `None`
/// exactly for other text.
pub fn read_hex(text: &[u8]) -> Option<u64>
    ensures { result ≡ hex_number text.now }
{
    let digits = without_prefix(text);
    if digits.is_empty() || digits.len() > 16 {
        return None;
    }
    number_of(digits)
}

// The text behind an optional `0x`.
fn without_prefix(text: &[u8]) -> &[u8]
    ensures { result.now ≡ digits_of text.now }
{
    match text {
        [b'0', b'x', digits @ ..] => digits,
        _ => text,
    }
}

// The number of so few digits that it fits.
fn number_of(digits: &[u8]) -> Option<u64>
    requires { length digits.now ≤ 16 }
    ensures { result ≡ hex_from 0 digits.now }
{
    let mut number = 0;
    for c in digits {
        number = 16 * number + u64::from(value_of(*c)?);
    }
    Some(number)
}

// What a character is worth as a digit.
fn value_of(c: u8) -> Option<u8>
    ensures value { result ≡ digit_value c }
    ensures small { IfSome result (λ digit. digit < 16) }
{
    match c {
        b'0'..=b'9' => Some(c - b'0'),
        b'a'..=b'f' => Some(c - b'a' + 10),
        b'A'..=b'F' => Some(c - b'A' + 10),
        _ => None,
    }
}
