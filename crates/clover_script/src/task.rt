// The task that a text spells, and the actor that is asked for it. Takes no memory: a value stays as it is spelled.
ghost use Rattle.std.specs.Prelude.{◌≡◌, ◌^◌, ◌<◌, ◌++◌, ℕ, List, ◌∷◌, codes, IfSome, IfNone};
ghost use Rattle.clover_map.specs.Key.{IsKey};
ghost use Rattle.clover_map.specs.declared.bytes.Value.{Value};
ghost use Rattle.clover_script.specs.Coded.{coded};
ghost use Rattle.clover_script.specs.Text.{tag_text, value_text};
ghost use Rattle.clover_script.specs.Line.{IsActor, IsWritten};
ghost use Rattle.clover_script.specs.Spelling.{IsKeyText, value_with, IsValueText, SpellsCall, SpellsNoCall, SpellsTask, SpellsNoTask, SpellsAsked, SpellsNothingAsked};

use crate::coded::{decode_into, spelled_length};
use crate::part::{actor_front, slot_of, tag_front};
use crate::spelled::{CallText, KeyText, LONGEST_KEY, TaskText, ValueText};
use crate::split::{after_word, split_at_byte};

/// How many bytes a value may have as it is written.
const LONGEST_WRITTEN: usize = 65_535;

/// The actor and the task of it that a text spells, with one space between them.
pub fn asked_of(text: &[u8]) -> Option<(u32, TaskText)>
    ensures found { IfSome result (λ p. SpellsAsked text.now p.0 p.1) }
    ensures none { IfNone result (SpellsNothingAsked text.now) }
{
    let (actor, rest) = actor_front(text)?;
    let task = task_for(actor, rest)?;
    Some((actor, task))
}

/// The task of its text, which is the line without its first word and its actor. None exactly where it is none of the
/// actor's.
fn task_for(actor: u32, text: &[u8]) -> Option<TaskText>
    requires { IsActor actor }
    ensures found { IfSome result (SpellsTask actor text.now) }
    ensures none { IfNone result (SpellsNoTask actor text.now) }
{
    if actor == 0 {
        return chore_of(text);
    }
    let call = call_of(text)?;
    Some(TaskText::Client(call))
}

/// The recycler's task of its text.
fn chore_of(text: &[u8]) -> Option<TaskText>
    ensures found { IfSome result (SpellsTask 0 text.now) }
    ensures none { IfNone result (SpellsNoTask 0 text.now) }
{
    if let Some(rest) = after_word(text, b"recycle ") {
        let slot = slot_of(rest)?;
        return Some(TaskText::Recycle(slot));
    }
    if text == b"sweep".as_slice() {
        Some(TaskText::Sweep)
    } else {
        None
    }
}

/// The client's call of its text.
fn call_of(text: &[u8]) -> Option<CallText>
    ensures found { IfSome result (SpellsCall text.now) }
    ensures none { IfNone result (SpellsNoCall text.now) }
{
    if let Some(rest) = after_word(text, b"get ") {
        let key = key_of(rest)?;
        return Some(CallText::Get { key });
    }
    if let Some(rest) = after_word(text, b"delete ") {
        let key = key_of(rest)?;
        return Some(CallText::Delete { key });
    }
    if let Some(rest) = after_word(text, b"put ") {
        return put_of(rest);
    }
    swap_of(after_word(text, b"swap ")?)
}

/// The put of the texts of a key and a value, with one space between them.
fn put_of(text: &[u8]) -> Option<CallText>
    ensures found { IfSome result (SpellsCall (codes "put " ++ text.now)) }
    ensures none { IfNone result ((k : List ℕ) (v : Value) → IsKey k → IsWritten v → text.now ≡ coded k ++ 32 ∷ value_text v → ⊥) }
{
    let (key, rest) = key_front(text)?;
    let value = value_of(rest)?;
    Some(CallText::Put { key, value })
}

/// The swap of the texts of a key, a tag and a value, with one space between each two.
fn swap_of(text: &[u8]) -> Option<CallText>
    ensures found { IfSome result (SpellsCall (codes "swap " ++ text.now)) }
    ensures none { IfNone result ((k : List ℕ) (e : ℕ) (v : Value) → IsKey k → e < 2 ^ 42 → IsWritten v → text.now ≡ coded k ++ 32 ∷ (tag_text e ++ 32 ∷ value_text v) → ⊥) }
{
    let (key, rest) = key_front(text)?;
    let (expected, rest) = tag_front(rest)?;
    let value = value_of(rest)?;
    Some(CallText::Swap {
        key,
        expected,
        value,
    })
}

/// The key that a text begins with, and the text behind the space after it.
fn key_front(text: &[u8]) -> Option<(KeyText<'_>, &[u8])>
    ensures found { IfSome result (λ p. (key : List ℕ) × IsKeyText p.0 key × (text.now ≡ coded key ++ 32 ∷ p.1.now)) }
    ensures none { IfNone result ((k : List ℕ) (rest : List ℕ) → IsKey k → text.now ≡ coded k ++ 32 ∷ rest → ⊥) }
{
    let (word, rest) = split_at_byte(text, b' ')?;
    let key = key_of(word)?;
    Some((key, rest))
}

/// The key of a coded text. None exactly where it is no key's.
fn key_of(text: &[u8]) -> Option<KeyText<'_>>
    ensures found { IfSome result (λ k. (key : List ℕ) × IsKeyText k key × (text.now ≡ coded key)) }
    ensures none { IfNone result ((k : List ℕ) → IsKey k → text.now ≡ coded k → ⊥) }
{
    match spelled_length(text)? {
        length @ 1..=LONGEST_KEY => Some(KeyText { text, length }),
        _ => None,
    }
}

/// The value of a text, which is an equals sign and a coded text. None exactly where it is no value's.
fn value_of(text: &[u8]) -> Option<ValueText>
    ensures found { IfSome result (λ v. (bytes : List ℕ) × IsValueText v bytes × (text.now ≡ value_text (value_with bytes))) }
    ensures none { IfNone result ((v : Value) → IsWritten v → text.now ≡ value_text v → ⊥) }
{
    let text = after_word(text, b"=")?;
    let length = spelled_length(text)?;
    if length > LONGEST_WRITTEN {
        return None;
    }
    Some(ValueText {
        text,
        written: length as u32,
    })
}
