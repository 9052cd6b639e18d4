// The lines of what an actor is told in place of an answer, each built at the end of a list of bytes and
// ended by LF. Every error here is want of memory, and then a front of the line may stand there.
ghost use Rattle.std.specs.Prelude.{◌≡◌, ◌++◌, decimal, codes, OnOk};
ghost use Rattle.clover_script.specs.Text.{told_line, unreached_text, linked_text, behind_text, too_long_text, busy_text, none_text};

use crate::text::{push_number, push_tag};
use std::alloc::AllocError;

/// Puts the line that one of an actor's accesses was refused.
pub fn push_unreached(out: &mut Vec<u8>, actor: u32) -> Result<(), AllocError>
    ensures ok { OnOk result (out.new.items ≡ out.old.items ++ told_line actor unreached_text) }
{
    push_actor(out, actor)?;
    out.extend_from_slice(b"unreached\n")
}

/// Puts the line that a client's write was made under this tag, and an access after it was refused.
pub fn push_linked(out: &mut Vec<u8>, client: u32, tag: u64) -> Result<(), AllocError>
    ensures ok { OnOk result (out.new.items ≡ out.old.items ++ told_line client (linked_text tag)) }
{
    push_actor(out, client)?;
    out.extend_from_slice(b"linked ")?;
    push_tag(out, tag)?;
    out.push(b'\n')?;
    Ok(())
}

/// Puts the line that a client's call was given up after this many turns.
pub fn push_behind(out: &mut Vec<u8>, client: u32, turns: u64) -> Result<(), AllocError>
    ensures ok { OnOk result (out.new.items ≡ out.old.items ++ told_line client (behind_text turns)) }
{
    push_actor(out, client)?;
    out.extend_from_slice(b"behind ")?;
    push_number(out, turns)?;
    out.push(b'\n')?;
    Ok(())
}

/// Puts the line that a value has `length` bytes, more than the `room` bytes of a buffer.
pub fn push_too_long(
    out: &mut Vec<u8>,
    client: u32,
    length: u64,
    room: u64,
) -> Result<(), AllocError>
    ensures ok { OnOk result (out.new.items ≡ out.old.items ++ told_line client (too_long_text length room)) }
{
    push_actor(out, client)?;
    out.extend_from_slice(b"toolong ")?;
    push_number(out, length)?;
    out.push(b' ')?;
    push_number(out, room)?;
    out.push(b'\n')?;
    Ok(())
}

/// Puts the line that an actor has a task already, and begins no other.
pub fn push_busy(out: &mut Vec<u8>, actor: u32) -> Result<(), AllocError>
    ensures ok { OnOk result (out.new.items ≡ out.old.items ++ told_line actor busy_text) }
{
    push_actor(out, actor)?;
    out.extend_from_slice(b"busy\n")
}

/// Puts the line that there is no actor of this number.
pub fn push_none(out: &mut Vec<u8>, actor: u32) -> Result<(), AllocError>
    ensures ok { OnOk result (out.new.items ≡ out.old.items ++ told_line actor none_text) }
{
    push_actor(out, actor)?;
    out.extend_from_slice(b"none\n")
}

/// Puts an actor's number and a space.
fn push_actor(out: &mut Vec<u8>, actor: u32) -> Result<(), AllocError>
    ensures ok { OnOk result (out.new.items ≡ out.old.items ++ (decimal actor ++ codes " ")) }
{
    push_number(out, u64::from(actor))?;
    out.push(b' ')?;
    Ok(())
}
