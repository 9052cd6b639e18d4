// The names of words, printed and read, and words as hexadecimal digits. What is printed is built at the end of a list of
// bytes: every error there is want of memory, and then a front of the text may stand there. Reading takes no memory.
ghost use Rattle.std.specs.Prelude.{◌≡◌, ◌^◌, ◌<◌, ℕ, List, ◌∷◌, ◌++◌, decimal, codes, OnOk, IfSome, IfNone, IsSomeAnd};
ghost use Rattle.clover_words.specs.declared.word.Buffer.{Buffer as AnyBuffer};
ghost use Rattle.clover_words.specs.declared.word.Word.{Word as AnyWord};
ghost use Rattle.clover_script.specs.Split.{EndsNumber};
ghost use Rattle.clover_script.specs.Choice.{IsNamed};
ghost use Rattle.clover_script.specs.Text.{IsNumberedBuffer, hex_text, buffer_text, word_text, copy_text};

use crate::coded::push_hex_bytes;
use crate::number::number_front;
use crate::split::after_word;
use crate::text::push_number;
use clover_words::{Buffer, Side, Word};
use std::alloc::AllocError;

/// Puts a number at the end as sixteen digits of four bits, the highest first.
pub fn push_hex(out: &mut Vec<u8>, number: u64) -> Result<(), AllocError>
    ensures ok { OnOk result (out.new.items ≡ out.old.items ++ hex_text number) }
{
    push_hex_bytes(out, &number.to_be_bytes())
}

/// Puts the name of a copy of a word at the end. Each number in it is any u32.
pub fn push_word(out: &mut Vec<u8>, word: Word, side: Side) -> Result<(), AllocError>
    ensures ok { OnOk result (out.new.items ≡ out.old.items ++ copy_text word side) }
{
    if side == Side::Flushed {
        out.push(b'f')?;
    }
    push_name(out, word)
}

fn push_name(out: &mut Vec<u8>, word: Word) -> Result<(), AllocError>
    ensures ok { OnOk result (out.new.items ≡ out.old.items ++ word_text word) }
{
    match word {
        Word::Next(buffer) => push_of_buffer(out, b'N', buffer),
        Word::Meta(buffer) => push_of_buffer(out, b'M', buffer),
        Word::Value(buffer, number) => {
            push_of_buffer(out, b'V', buffer)?;
            push_part(out, b'.', number)
        }
        Word::Root(slot) => push_part(out, b'R', slot),
        Word::Key(slot, number) => {
            push_part(out, b'K', slot)?;
            push_part(out, b'.', number)
        }
        Word::Short(slot) => push_part(out, b'S', slot),
        Word::Count => {
            out.push(b'C')?;
            Ok(())
        }
    }
}

/// Puts a letter and a buffer's node and index.
fn push_of_buffer(out: &mut Vec<u8>, letter: u8, buffer: Buffer) -> Result<(), AllocError>
    ensures ok { OnOk result (out.new.items ≡ out.old.items ++ letter ∷ buffer_text buffer) }
{
    push_part(out, letter, buffer.node)?;
    push_part(out, b'.', buffer.index)
}

/// Puts a letter and a number.
fn push_part(out: &mut Vec<u8>, letter: u8, number: u32) -> Result<(), AllocError>
    ensures ok { OnOk result (out.new.items ≡ out.old.items ++ letter ∷ decimal number) }
{
    out.push(letter)?;
    push_number(out, u64::from(number))
}

/// The durable word whose current copy a text names; no pool need have it. None exactly where the text is no such name.
pub fn word_of(text: &[u8]) -> Option<Word>
    ensures found { IfSome result (λ w. IsNamed w × (text.now ≡ word_text w)) }
    ensures none { IfNone result ((w : AnyWord) → IsNamed w → text.now ≡ word_text w → ⊥) }
{
    let (word, rest) = word_front(text)?;
    if rest.is_empty() { Some(word) } else { None }
}

/// The durable word with whose current copy's name a text begins, up to the first byte behind it that is no digit, and
/// the text after it.
pub fn word_front(text: &[u8]) -> Option<(Word, &[u8])>
    ensures found { IfSome result (λ p. IsNamed p.0 × (text.now ≡ word_text p.0 ++ p.1.now)) }
    ensures only { (w : AnyWord) (rest : List ℕ) → IsNamed w → EndsNumber rest → text.now ≡ word_text w ++ rest → IsSomeAnd result (λ p. (p.0 ≡ w) × (p.1.now ≡ rest)) }
{
    let [letter, rest @ ..] = text else {
        return None;
    };
    match letter {
        b'N' => {
            let (buffer, rest) = buffer_front(rest)?;
            Some((Word::Next(buffer), rest))
        }
        b'M' => {
            let (buffer, rest) = buffer_front(rest)?;
            Some((Word::Meta(buffer), rest))
        }
        b'V' => {
            let (buffer, rest) = buffer_front(rest)?;
            let (number, rest) = part_front(rest)?;
            Some((Word::Value(buffer, number), rest))
        }
        b'R' => {
            let (slot, rest) = small_front(rest)?;
            Some((Word::Root(slot), rest))
        }
        b'K' => {
            let (slot, rest) = small_front(rest)?;
            let (number, rest) = part_front(rest)?;
            Some((Word::Key(slot, number), rest))
        }
        _ => None,
    }
}

/// The node and the index of a buffer at a text's front, and the text after them.
fn buffer_front(text: &[u8]) -> Option<(Buffer, &[u8])>
    ensures found { IfSome result (λ p. IsNumberedBuffer p.0 × (text.now ≡ buffer_text p.0 ++ p.1.now)) }
    ensures only { (b : AnyBuffer) (rest : List ℕ) → IsNumberedBuffer b → EndsNumber rest → text.now ≡ buffer_text b ++ rest → IsSomeAnd result (λ p. (p.0 ≡ b) × (p.1.now ≡ rest)) }
{
    let (node, rest) = small_front(text)?;
    let (index, rest) = part_front(rest)?;
    Some((Buffer { node, index }, rest))
}

/// The number behind a dot at a text's front, and the text after it.
fn part_front(text: &[u8]) -> Option<(u32, &[u8])>
    ensures found { IfSome result (λ p. (p.0 < 2 ^ 32) × (text.now ≡ codes "." ++ (decimal p.0 ++ p.1.now))) }
    ensures only { (n : ℕ) (rest : List ℕ) → n < 2 ^ 32 → EndsNumber rest → text.now ≡ codes "." ++ (decimal n ++ rest) → IsSomeAnd result (λ p. (p.0 ≡ n) × (p.1.now ≡ rest)) }
{
    small_front(after_word(text, b".")?)
}

/// The number of at most 4,294,967,295 at a text's front, up to the first byte that is no digit, and the text after it.
fn small_front(text: &[u8]) -> Option<(u32, &[u8])>
    ensures found { IfSome result (λ p. (p.0 < 2 ^ 32) × (text.now ≡ decimal p.0 ++ p.1.now)) }
    ensures only { (n : ℕ) (rest : List ℕ) → n < 2 ^ 32 → EndsNumber rest → text.now ≡ decimal n ++ rest → IsSomeAnd result (λ p. (p.0 ≡ n) × (p.1.now ≡ rest)) }
{
    let (number, rest) = number_front(text)?;
    match number {
        small @ 0..=4_294_967_295 => Some((small as u32, rest)),
        _ => None,
    }
}
