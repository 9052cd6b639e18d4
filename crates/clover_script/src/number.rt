// Numbers as a script spells them: decimal digits without a leading zero, below 2 ^ 64.
ghost use Rattle.std.specs.Prelude.{◌≡◌, ◌^◌, ◌<◌, ◌≤◌, ℕ, List, ◌++◌, length, decimal, slice_index, IfSome, IfNone, IsSomeAnd, Some};
ghost use Rattle.clover_script.specs.Split.{IsDigit, AreDigits, EndsNumber};

use crate::split::after_word;
use itoa::Buffer;

/// The number that a text spells. None exactly where it is not the one spelling of a number below
/// 2 ^ 64.
pub fn number_of(text: &[u8]) -> Option<u64>
    ensures found { IfSome result (λ n. text.now ≡ decimal n) }
    ensures only { (n : ℕ) → n < 2 ^ 64 → text.now ≡ decimal n → result ≡ Some n }
{
    // Most numbers of a script have one digit, for which the way through the standard reader is long.
    match text {
        [digit] if digit.is_ascii_digit() => Some(u64::from(*digit - b'0')),
        _ => read_exactly(text),
    }
}

fn read_exactly(text: &[u8]) -> Option<u64>
    ensures found { IfSome result (λ n. text.now ≡ decimal n) }
    ensures only { (n : ℕ) → n < 2 ^ 64 → text.now ≡ decimal n → result ≡ Some n }
{
    // The standard reader also takes a sign and leading zeros, so what it read is compared in print.
    let number = read_loosely(text)?;
    let mut buffer = Buffer::new();
    if buffer.format(number).as_bytes() == text {
        Some(number)
    } else {
        None
    }
}

fn read_loosely(text: &[u8]) -> Option<u64>
    ensures { (n : ℕ) → n < 2 ^ 64 → text.now ≡ decimal n → result ≡ Some n }
{
    match str::from_utf8(text) {
        Ok(digits) => digits.parse::<u64>().ok(),
        Err(_) => None,
    }
}

/// The number that a text begins with, up to the first byte that is no digit, and the text after it.
pub fn number_front(text: &[u8]) -> Option<(u64, &[u8])>
    ensures found { IfSome result (λ p. text.now ≡ decimal p.0 ++ p.1.now) }
    ensures only { (n : ℕ) (rest : List ℕ) → n < 2 ^ 64 → EndsNumber rest → text.now ≡ decimal n ++ rest → IsSomeAnd result (λ p. (p.0 ≡ n) × (p.1.now ≡ rest)) }
{
    let (digits, rest) = digits_front(text);
    let number = number_of(digits)?;
    Some((number, rest))
}

/// The digits at the front of a text, and the text after them.
fn digits_front(text: &[u8]) -> (&[u8], &[u8])
    ensures whole { text.now ≡ result.0.now ++ result.1.now }
    ensures digits { AreDigits result.0.now }
    ensures end { EndsNumber result.1.now }
{
    match place_of_other(text) {
        Some(at) => text.split_at(at),
        None => (text, &[]),
    }
}

fn place_of_other(text: &[u8]) -> Option<usize>
    ensures within { IfSome result (λ at. at < length text.now) }
    ensures found { IfSome result (λ at. IsDigit (slice_index text.now at) → ⊥) }
    ensures first { IfSome result (λ at. (k : ℕ) → k < at → IsDigit (slice_index text.now k)) }
    ensures none { IfNone result ((k : ℕ) → k < length text.now → IsDigit (slice_index text.now k)) }
{
    text.iter().position(|b| !b.is_ascii_digit())
}

/// The number behind a name at a text's front, and the text after it.
pub fn field<'a>(text: &'a [u8], name: &[u8]) -> Option<(u64, &'a [u8])>
    ensures found { IfSome result (λ p. text.now ≡ name.now ++ (decimal p.0 ++ p.1.now)) }
    ensures only { (n : ℕ) (rest : List ℕ) → n < 2 ^ 64 → EndsNumber rest → text.now ≡ name.now ++ (decimal n ++ rest) → IsSomeAnd result (λ p. (p.0 ≡ n) × (p.1.now ≡ rest)) }
{
    let rest = after_word(text, name)?;
    number_front(rest)
}
