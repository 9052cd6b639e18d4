// The small words of a line: actors, slots, times and tags. Takes no memory.
ghost use Rattle.std.specs.Prelude.{◌≡◌, ◌^◌, ◌<◌, ◌≤◌, ℕ, List, ◌∷◌, ◌++◌, decimal, IfSome, IfNone};
ghost use Rattle.clover_script.specs.Line.{IsActor, IsSlot, AreTimes};
ghost use Rattle.clover_script.specs.Text.{tag_text};

use crate::number::{field, number_front, number_of};
use crate::split::split_at_byte;

/// The actor that a text spells. None exactly where it spells none.
pub fn actor_of(text: &[u8]) -> Option<u32>
    ensures found { IfSome result (λ a. IsActor a × (text.now ≡ decimal a)) }
    ensures none { IfNone result ((a : ℕ) → IsActor a → text.now ≡ decimal a → ⊥) }
{
    match number_of(text)? {
        number @ 0..=16 => Some(number as u32),
        _ => None,
    }
}

/// The actor that a text begins with, and the text behind the space after it.
pub fn actor_front(text: &[u8]) -> Option<(u32, &[u8])>
    ensures found { IfSome result (λ p. IsActor p.0 × (text.now ≡ decimal p.0 ++ 32 ∷ p.1.now)) }
    ensures none { IfNone result ((a : ℕ) (rest : List ℕ) → IsActor a → text.now ≡ decimal a ++ 32 ∷ rest → ⊥) }
{
    let (word, rest) = split_at_byte(text, b' ')?;
    let actor = actor_of(word)?;
    Some((actor, rest))
}

/// The slot that a text spells. None exactly where it spells none.
pub fn slot_of(text: &[u8]) -> Option<u32>
    ensures found { IfSome result (λ slot. IsSlot slot × (text.now ≡ decimal slot)) }
    ensures none { IfNone result ((slot : ℕ) → IsSlot slot → text.now ≡ decimal slot → ⊥) }
{
    match number_of(text)? {
        number @ 0..=16_383 => Some(number as u32),
        _ => None,
    }
}

/// The number of steps that a text spells. None exactly where it spells none.
pub fn times_of(text: &[u8]) -> Option<u64>
    ensures found { IfSome result (λ n. AreTimes n × (text.now ≡ decimal n)) }
    ensures none { IfNone result ((n : ℕ) → AreTimes n → text.now ≡ decimal n → ⊥) }
{
    match number_of(text)? {
        times @ 1..=1_000_000 => Some(times),
        _ => None,
    }
}

/// The number of the tag that a text spells. None exactly where it spells none.
pub fn tag_of(text: &[u8]) -> Option<u64>
    ensures found { IfSome result (λ t. (t < 2 ^ 42) × (text.now ≡ tag_text t)) }
    ensures none { IfNone result ((t : ℕ) → t < 2 ^ 42 → text.now ≡ tag_text t → ⊥) }
{
    let (node, rest) = number_front(text)?;
    let (index, rest) = field(rest, b".")?;
    let (generation, rest) = field(rest, b".")?;
    if !rest.is_empty() || node >= 64 || index >= 65_536 || generation >= 1_048_576 {
        return None;
    }
    Some((node << 36) + (index << 20) + generation)
}

/// The number of the tag that a text begins with, and the text behind the space after it.
pub fn tag_front(text: &[u8]) -> Option<(u64, &[u8])>
    ensures found { IfSome result (λ p. (p.0 < 2 ^ 42) × (text.now ≡ tag_text p.0 ++ 32 ∷ p.1.now)) }
    ensures none { IfNone result ((t : ℕ) (rest : List ℕ) → t < 2 ^ 42 → text.now ≡ tag_text t ++ 32 ∷ rest → ⊥) }
{
    let (word, rest) = split_at_byte(text, b' ')?;
    let tag = tag_of(word)?;
    Some((tag, rest))
}
