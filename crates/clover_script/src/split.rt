// Cutting a text: behind a word at its front, at a byte, and into lines. Works on bytes alone and
// takes no memory.
ghost use Rattle.std.specs.Prelude.{◌≡◌, ◌≢◌, ◌<◌, ◌↔◌, ℕ, List, [], ◌∷◌, ◌++◌, length, take, slice_index, IsTrue, IfSome, IfNone};
ghost use Rattle.clover_script.specs.Split.{Lacks, EndsWord};
ghost use Rattle.clover_script.specs.Line.{lines_of};

/// The text behind a word at its front. None exactly where it does not begin with the word.
#[inline(always)]
pub fn after_word<'a>(text: &'a [u8], word: &[u8]) -> Option<&'a [u8]>
    ensures found { IfSome result (λ rest. text.now ≡ word.now ++ rest.now) }
    ensures none { IfNone result ((rest : List ℕ) → text.now ≡ word.now ++ rest → ⊥) }
{
    if has_front(text, word) {
        Some(&text[word.len()..])
    } else {
        None
    }
}

// Whether a text begins with a word. The words are short and mostly differ from the text in their first byte, so the loop
// beats a comparison of slices, which reads both whole.
#[inline(always)]
fn has_front(text: &[u8], word: &[u8]) -> bool
    ensures { IsTrue result ↔ (take (length word.now) text.now ≡ word.now) }
{
    if text.len() < word.len() {
        return false;
    }
    for index in 0..word.len() {
        if text[index] != word[index] {
            return false;
        }
    }
    true
}

/// The texts before and after the first place of a byte. None exactly where the byte stands nowhere.
pub fn split_at_byte(text: &[u8], byte: u8) -> Option<(&[u8], &[u8])>
    ensures found { IfSome result (λ p. text.now ≡ p.0.now ++ byte ∷ p.1.now) }
    ensures first { IfSome result (λ p. Lacks byte p.0.now) }
    ensures none { IfNone result (Lacks byte text.now) }
{
    let at = place_of(text, byte)?;
    Some((&text[..at], &text[at + 1..]))
}

/// The text up to the first space, and the text from there on.
pub fn word_and_rest(text: &[u8]) -> (&[u8], &[u8])
    ensures whole { text.now ≡ result.0.now ++ result.1.now }
    ensures word { Lacks 32 result.0.now }
    ensures end { EndsWord result.1.now }
{
    match place_of(text, b' ') {
        Some(at) => text.split_at(at),
        None => (text, &[]),
    }
}

fn place_of(text: &[u8], byte: u8) -> Option<usize>
    ensures within { IfSome result (λ at. at < length text.now) }
    ensures found { IfSome result (λ at. slice_index text.now at ≡ byte) }
    ensures first { IfSome result (λ at. (k : ℕ) → k < at → slice_index text.now k ≢ byte) }
    ensures none { IfNone result ((k : ℕ) → k < length text.now → slice_index text.now k ≢ byte) }
{
    text.iter().position(|b| *b == byte)
}

/// The first line of a text, without the LF that ends it, and the text after it.
pub fn first_line(text: &[u8]) -> (&[u8], &[u8])
    requires { 0 < length text.now }
    ensures lines { lines_of text.now ≡ result.0.now ∷ lines_of result.1.now }
    ensures shorter { length result.1.now < length text.now }
{
    match split_at_byte(text, b'\n') {
        Some(cut) => cut,
        None => (text, &[]),
    }
}
