// Coded texts, read and written: printable bytes stand for themselves, every other byte is a percent
// sign and two digits. Works on bytes alone.
ghost use Rattle.std.specs.Prelude.{◌≡◌, ◌+◌, ◌*◌, ◌<◌, ℕ, List, ◌++◌, length, IsTrue, IfSome, IfNone, OnOk, flat_map};
ghost use Rattle.clover_words.specs.Pack.{AreBytes};
ghost use Rattle.clover_script.specs.Coded.{coded, coded_byte, hex_byte, hex_digit, is_plain};

use std::alloc::AllocError;

/// Whether a byte stands for itself in a coded text.
fn is_plain(byte: u8) -> bool
    ensures { result ≡ is_plain byte }
{
    (0x21 <= byte && byte <= 0x7e) && byte != b'%'
}

/// The digit that is written so. None exactly where none is.
fn digit_of(digit: u8) -> Option<u8>
    ensures found { IfSome result (λ d. (d < 16) × (hex_digit d ≡ digit)) }
    ensures none { IfNone result ((d : ℕ) → d < 16 → hex_digit d ≡ digit → ⊥) }
{
    match digit {
        b'0'..=b'9' => Some(digit - b'0'),
        b'a'..=b'f' => Some(digit - b'a' + 10),
        _ => None,
    }
}

/// How a digit below 16 is written.
fn hex(digit: u8) -> u8
    requires { digit < 16 }
    ensures { result ≡ hex_digit digit }
{
    if digit < 10 {
        b'0' + digit
    } else {
        b'a' + (digit - 10)
    }
}

/// The byte that a text begins with, and the text after it. None exactly where no byte's one
/// spelling begins the text.
fn first_byte(text: &[u8]) -> Option<(u8, &[u8])>
    ensures found { IfSome result (λ p. text.now ≡ coded_byte p.0 ++ p.1.now) }
    ensures none { IfNone result ((b : ℕ) (more : List ℕ) → b < 256 → text.now ≡ coded_byte b ++ more → ⊥) }
    ensures shorter { IfSome result (λ p. length p.1.now < length text.now) }
{
    match text {
        [b'%', high, low, after @ ..] => {
            let byte = 16 * digit_of(*high)? + digit_of(*low)?;
            if is_plain(byte) {
                None
            } else {
                Some((byte, after))
            }
        }
        [byte, after @ ..] if is_plain(*byte) => Some((*byte, after)),
        _ => None,
    }
}

/// Whether each byte stands for itself. It reads all of them, so that it can take many at a time.
fn are_plain(bytes: &[u8]) -> bool
    ensures { IsTrue result → coded bytes.now ≡ bytes.now }
{
    let mut plain = true;
    for byte in bytes {
        plain &= is_plain(*byte);
    }
    plain
}

/// How many bytes a coded text stands for. None exactly where the text is no coded text.
pub fn spelled_length(text: &[u8]) -> Option<usize>
    ensures found { IfSome result (λ n. (bytes : List ℕ) × AreBytes bytes × (text.now ≡ coded bytes) × (n ≡ length bytes)) }
    ensures none { IfNone result ((bytes : List ℕ) → AreBytes bytes → text.now ≡ coded bytes → ⊥) }
{
    if are_plain(text) {
        return Some(text.len());
    }
    let mut length = 0;
    let mut rest = text;
    while !rest.is_empty() {
        let (_, after) = first_byte(rest)?;
        length += 1;
        rest = after;
    }
    Some(length)
}

/// Writes the bytes that a coded text stands for into a room for as many.
pub fn decode_into(text: &[u8], room: &mut [u8])
    ensures { (bytes : List ℕ) → AreBytes bytes → text.now ≡ coded bytes → length bytes ≡ length room.old → room.new ≡ bytes }
{
    // A text that is no longer than its bytes is those bytes.
    if text.len() == room.len() {
        room.copy_from_slice(text);
        return;
    }
    let mut rest = text;
    for index in 0..room.len() {
        let Some((byte, after)) = first_byte(rest) else {
            return;
        };
        room[index] = byte;
        rest = after;
    }
}

/// Puts the coded text of some bytes at the end of a text. An error for want of memory alone; then a
/// front of it may stand there.
pub fn push_coded(out: &mut Vec<u8>, bytes: &[u8]) -> Result<(), AllocError>
    ensures ok { OnOk result (out.new.items ≡ out.old.items ++ coded bytes.now) }
{
    if are_plain(bytes) {
        return out.extend_from_slice(bytes);
    }
    for byte in bytes {
        push_coded_byte(out, *byte)?;
    }
    Ok(())
}

fn push_coded_byte(out: &mut Vec<u8>, byte: u8) -> Result<(), AllocError>
    ensures ok { OnOk result (out.new.items ≡ out.old.items ++ coded_byte byte) }
{
    if is_plain(byte) {
        out.push(byte)?;
    } else {
        out.push(b'%')?;
        push_hex_byte(out, byte)?;
    }
    Ok(())
}

/// Puts the two digits of each byte at the end. An error for want of memory alone; then a front of them
/// may stand there.
pub fn push_hex_bytes(out: &mut Vec<u8>, bytes: &[u8]) -> Result<(), AllocError>
    ensures ok { OnOk result (out.new.items ≡ out.old.items ++ flat_map hex_byte bytes.now) }
{
    for byte in bytes {
        push_hex_byte(out, *byte)?;
    }
    Ok(())
}

/// Puts the two digits of a byte at the end.
fn push_hex_byte(out: &mut Vec<u8>, byte: u8) -> Result<(), AllocError>
    ensures ok { OnOk result (out.new.items ≡ out.old.items ++ hex_byte byte) }
{
    out.extend_from_slice(&[hex(byte / 16), hex(byte % 16)])
}
