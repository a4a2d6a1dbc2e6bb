// Decimal text, as a kernel writes it in its notes.
ghost use Rattle.std.specs.Prelude.{◌≡◌, ◌≤◌, ◌<◌, ◌^◌, length, IfSome};
ghost use Rattle.kc_word.specs.Decimal.{decimal_number, decimal_digits, decimal_from, decimal_value, positive, negative};

/// The whole number that a text writes in decimal: an optional `-`, then 1 to 19 digits, leading zeros among
/// them. `None` exactly for other text, and for a number that 64 bits with a sign don't hold.
pub fn read_dec(text: &[u8]) -> Option<i64>
    ensures { result ≡ decimal_number text.now }
{
    match text {
        [b'-', digits @ ..] => negative(read_digits(digits)?),
        _ => positive(read_digits(text)?),
    }
}

// The number, where it fits.
fn positive(number: u64) -> Option<i64>
    ensures { result ≡ positive number }
{
    if number < 1 << 63 {
        Some(number as i64)
    } else {
        None
    }
}

// The number below zero, where it fits.
fn negative(number: u64) -> Option<i64>
    ensures { result ≡ negative number }
{
    0i64.checked_sub_unsigned(number)
}

// The number of 1 to 19 digits.
fn read_digits(digits: &[u8]) -> Option<u64>
    ensures { result ≡ decimal_digits digits.now }
{
    if digits.is_empty() || digits.len() > 19 {
        return None;
    }
    number_of(digits)
}

// The number of so few digits that it fits.
fn number_of(digits: &[u8]) -> Option<u64>
    requires { length digits.now ≤ 19 }
    ensures { result ≡ decimal_from 0 digits.now }
{
    let mut number = 0;
    for c in digits {
        number = 10 * number + u64::from(value_of(*c)?);
    }
    Some(number)
}

// What a character is worth as a digit.
fn value_of(c: u8) -> Option<u8>
    ensures value { result ≡ decimal_value c }
    ensures small { IfSome result (λ digit. digit < 10) }
{
    match c {
        b'0'..=b'9' => Some(c - b'0'),
        _ => None,
    }
}
