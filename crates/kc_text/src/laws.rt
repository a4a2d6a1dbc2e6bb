// What holds of the formats, for a caller to learn. These functions do nothing: each carries laws.
ghost use Rattle.std.specs.Prelude.{◌≡◌, ℕ, ◌≤◌, List, false};
ghost use Rattle.kc_text.specs.Format.{IsFormat};
ghost use Rattle.kc_text.specs.Readers.{literal, name_and, decimal_and, hex16, digit_from, is_name_byte, is_digit};

/// A value is read back from its text, whatever stands after it; what is read was written so; and where reading stops,
/// the bytes so far begin some text, and one more begins none.
pub fn know_formats()
    ensures literal { (text : List ℕ) → IsFormat (literal text) }
    ensures name { (end : ℕ) → is_name_byte end ≡ false → IsFormat (name_and end) }
    ensures decimal { (end : ℕ) → is_digit end ≡ false → IsFormat (decimal_and end) }
    ensures hex { IsFormat hex16 }
    ensures digit { (low high : ℕ) → low ≤ high → IsFormat (digit_from low high) }
{}
