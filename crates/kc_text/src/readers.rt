// The formats that others are composed of, read from bytes.
ghost use Rattle.std.specs.Prelude.{◌≡◌, ◌&&◌, ◌+◌, ◌-◌, ◌*◌, ◌<◌, ◌≤◌, ◌^◌, true, Some, None, if◌then◌else◌, nat_lt, IfOk, take, drop, length};
ghost use Rattle.kc_text.specs.Answers.{Gives};
ghost use Rattle.kc_text.specs.Reading.{shorter};
ghost use Rattle.kc_text.specs.Readers.{literal, name_and, decimal_and, decimal_below, hex16, digit_from, is_name_byte, is_digit, is_lower_hex, lower_value, read_digits, read_name, has_name_bytes, is_name};

/// Reads a text that stands first, and gives the bytes after it. It takes no memory.
///
/// # Errors
///
/// The bytes from the first on that isn't the text's.
pub fn read_literal<'a>(bytes: &'a [u8], text: &[u8]) -> Result<&'a [u8], &'a [u8]>
    ensures { Gives (λ rest. (tt, rest.now)) result ((literal text.now).read bytes.now) }
{
    for (i, wanted) in text.iter().enumerate() {
        if i == bytes.len() || bytes[i] != *wanted {
            return Err(&bytes[i..]);
        }
    }
    Ok(&bytes[text.len()..])
}

// Whether a byte is a decimal digit.
fn is_digit(c: u8) -> bool
    ensures { result ≡ is_digit c }
{
    c.is_ascii_digit()
}

// The number with one more digit, where it is one and the number stays within the greatest.
fn with_digit(n: u64, c: u8, most: u64) -> Option<u64>
    ensures { result ≡ (if is_digit c && nat_lt (10 * n + (c - 48)) (most + 1) then Some (10 * n + (c - 48)) else None) }
{
    if !is_digit(c) {
        return None;
    }
    let more = n.checked_mul(10)?.checked_add(u64::from(c - b'0'))?;
    if more <= most { Some(more) } else { None }
}

// Reads digits that go on those of a number, and the byte that ends them.
fn more_digits(bytes: &[u8], first: u64, end: u8, most: u64) -> Result<(u64, &[u8]), &[u8]>
    ensures { Gives (λ r. (r.0, r.1.now)) result (read_digits (most + 1) first end bytes.now) }
{
    let mut n = first;
    for (i, c) in bytes.iter().enumerate() {
        if *c == end {
            return Ok((n, &bytes[i + 1..]));
        }
        match with_digit(n, *c, most) {
            Some(more) => n = more,
            None => return Err(&bytes[i..]),
        }
    }
    Err(&bytes[bytes.len()..])
}

/// Reads a number in decimal without leading zeros and the byte that ends it, which is no digit, and gives the bytes
/// after that. The number is at most this one, which is at least 9. It takes no memory.
///
/// # Errors
///
/// The bytes from the one on where no such number goes on.
pub fn read_decimal_to(bytes: &[u8], end: u8, most: u64) -> Result<(u64, &[u8]), &[u8]>
    ensures { Gives (λ r. (r.0, r.1.now)) result ((decimal_below (most + 1) end).read bytes.now) }
{
    match bytes {
        [] => Err(bytes),
        [b'0', rest @ ..] => Ok((0, read_literal(rest, &[end])?)),
        [c, rest @ ..] => {
            if is_digit(*c) {
                more_digits(rest, u64::from(*c - b'0'), end, most)
            } else {
                Err(bytes)
            }
        }
    }
}

/// Reads a number below 2^64 in decimal without leading zeros and the byte that ends it, which is no digit, and
/// gives the bytes after that. It takes no memory.
///
/// # Errors
///
/// The bytes from the one on where no such number goes on.
pub fn read_decimal(bytes: &[u8], end: u8) -> Result<(u64, &[u8]), &[u8]>
    ensures { Gives (λ r. (r.0, r.1.now)) result ((decimal_and end).read bytes.now) }
{
    read_decimal_to(bytes, end, u64::MAX)
}

// Whether a byte is a hex digit in lower case.
fn is_lower_hex(c: u8) -> bool
    ensures { result ≡ is_lower_hex c }
{
    c.is_ascii_digit() || (b'a'..=b'f').contains(&c)
}

// What such a digit is worth.
fn lower_value(c: u8) -> u8
    requires { is_lower_hex c ≡ true }
    ensures value { result ≡ lower_value c }
    ensures small { result < 16 }
{
    if c <= b'9' { c - b'0' } else { c - (b'a' - 10) }
}

/// Reads a number in 16 hex digits, in lower case with leading zeros, and gives the bytes after them. It takes no
/// memory.
///
/// # Errors
///
/// The bytes from the first on that isn't such a digit.
pub fn read_hex16(bytes: &[u8]) -> Result<(u64, &[u8]), &[u8]>
    ensures { Gives (λ r. (r.0, r.1.now)) result (hex16.read bytes.now) }
{
    let mut n = 0;
    for i in 0..16 {
        if i == bytes.len() || !is_lower_hex(bytes[i]) {
            return Err(&bytes[i..]);
        }
        n = 16 * n + u64::from(lower_value(bytes[i]));
    }
    Ok((n, &bytes[16..]))
}

/// Whether a byte may stand in a name: a letter, a digit, `_` or `-`.
pub fn is_name_byte(c: u8) -> bool
    ensures { result ≡ is_name_byte c }
{
    c.is_ascii_alphanumeric() || c == b'_' || c == b'-'
}

/// Whether a text is a name: 1 to 64 of these bytes.
pub fn is_name(name: &[u8]) -> bool
    ensures { result ≡ is_name name.now }
{
    has_name_bytes(name) && 1 <= name.len() && name.len() <= 64
}

fn has_name_bytes(name: &[u8]) -> bool
    ensures { result ≡ has_name_bytes name.now }
{
    for c in name {
        if !is_name_byte(*c) {
            return false;
        }
    }
    true
}

// How many bytes of a name stand before the one that ends it, at most 63.
fn rest_of_name(bytes: &[u8], end: u8) -> Result<usize, &[u8]>
    ensures name { Gives (λ n. (take n bytes.now, drop (n + 1) bytes.now)) result (read_name 63 end bytes.now) }
    ensures within { IfOk result (λ n. n < length bytes.now) }
{
    for (i, c) in bytes.iter().enumerate() {
        if *c == end {
            return Ok(i);
        }
        if i == 63 || !is_name_byte(*c) {
            return Err(&bytes[i..]);
        }
    }
    Err(&bytes[bytes.len()..])
}

/// Reads a name of 1 to 64 bytes (letters, digits, `_` and `-`) and the byte that ends it, which is none of these,
/// and gives the name and the bytes after that one. It takes no memory.
///
/// # Errors
///
/// The bytes from the one on where no such name goes on.
pub fn read_name(bytes: &[u8], end: u8) -> Result<(&[u8], &[u8]), &[u8]>
    ensures { Gives (λ r. (r.0.now, r.1.now)) result ((name_and end).read bytes.now) }
{
    match bytes {
        [c, rest @ ..] if is_name_byte(*c) => {
            let n = rest_of_name(rest, end)?;
            Ok((&bytes[..n + 1], &rest[n + 1..]))
        }
        _ => Err(bytes),
    }
}

/// Reads one digit from `low` to `high`, neither above 9, and gives the bytes after it. It takes no memory.
///
/// # Errors
///
/// The bytes as they are.
pub fn read_digit(bytes: &[u8], low: u8, high: u8) -> Result<(u8, &[u8]), &[u8]>
    requires low { low ≤ 9 }
    requires high { high ≤ 9 }
    ensures { Gives (λ r. (r.0, r.1.now)) result ((digit_from low high).read bytes.now) }
{
    match bytes {
        [c, rest @ ..] if (b'0' + low..=b'0' + high).contains(c) => Ok((*c - b'0', rest)),
        _ => Err(bytes),
    }
}

/// The shorter of two rests: that of the reading that came further.
pub fn shorter<'a>(rest: &'a [u8], other: &'a [u8]) -> &'a [u8]
    ensures { result.now ≡ shorter rest.now other.now }
{
    if rest.len() <= other.len() {
        rest
    } else {
        other
    }
}
