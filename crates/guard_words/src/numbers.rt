//! Numbers on a command line.

ghost use Rattle.std.specs.Prelude.{◌≡◌, ◌<◌, ◌≤◌, ◌^◌, ◌++◌, ◌↔◌, ℕ, IsTrue, All, MatchOption, codes};
ghost use Rattle.guard_words.specs.Words.{IsCount, IsHexDigit, IsHexadecimal, IsNumber};

use skip_machine::decimal_of;

/// The number below 2^32 that a text is.
pub(crate) fn number_of(text: &str) -> Option<u32>
    ensures { MatchOption result ((n : ℕ) → IsNumber text.now n → ⊥) (λ n. IsNumber text.now n) }
{
    match text.strip_prefix("0x") {
        Some(digits) => hexadecimal_of(digits),
        None => match decimal_of(text) {
            Some(n) => small(n),
            None => None,
        },
    }
}

/// The number from 1 to 4,000 that a text is.
pub(crate) fn count_of(text: &str) -> Option<u32>
    ensures { MatchOption result ((n : ℕ) → IsCount text.now n → ⊥) (λ n. IsCount text.now n) }
{
    match number_of(text) {
        Some(n) if 1 <= n && n <= 4000 => Some(n),
        _ => None,
    }
}

/// A number, if it is below 2^32.
fn small(n: u64) -> Option<u32>
    ensures { MatchOption result (2 ^ 32 ≤ n) (λ m. (m ≡ n) × (m < 2 ^ 32)) }
{
    if n < 0x1_0000_0000 {
        Some(n as u32)
    } else {
        None
    }
}

/// The number that one to eight hexadecimal digits behind `0x` are.
fn hexadecimal_of(digits: &str) -> Option<u32>
    ensures { MatchOption result ((n : ℕ) → IsHexadecimal (codes "0x" ++ digits.now) n → ⊥) (λ n. IsHexadecimal (codes "0x" ++ digits.now) n) }
{
    if digits.len() > 8 || !are_hex_digits(digits.as_bytes()) {
        return None;
    }
    match u32::from_str_radix(digits, 16) {
        Ok(n) => Some(n),
        Err(_) => None,
    }
}

fn are_hex_digits(bytes: &[u8]) -> bool
    ensures { IsTrue result ↔ All IsHexDigit bytes.now }
{
    bytes.iter().all(is_hex_digit)
}

fn is_hex_digit(byte: &u8) -> bool
    ensures { IsTrue result ↔ IsHexDigit byte.now }
{
    matches!(*byte, b'0'..=b'9' | b'a'..=b'f')
}
