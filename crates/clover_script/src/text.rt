// The printed texts of calls and replies, each built at the end of a list of bytes. Every
// error here is want of memory, and then a front of the text may stand there.
ghost use Rattle.std.specs.Prelude.{◌≡◌, ◌++◌, decimal, OnOk};
ghost use Rattle.clover_script.specs.Text.{tag_text, value_text, reply_text, call_text};
ghost use Rattle.clover_script.specs.Coded.{coded};

use crate::coded::push_coded;
use clover_map::{Call, Key, Reply, Value};
use itoa::Buffer;
use std::alloc::AllocError;

/// Puts a number at the end, in decimal.
pub fn push_number(out: &mut Vec<u8>, number: u64) -> Result<(), AllocError>
    ensures ok { OnOk result (out.new.items ≡ out.old.items ++ decimal number) }
{
    // Most numbers that are printed have one digit.
    if number < 10 {
        out.push(b'0' + number as u8)?;
        return Ok(());
    }
    let mut buffer = Buffer::new();
    out.extend_from_slice(buffer.format(number).as_bytes())
}

/// Puts the tag of this number at the end: its node, index and generation.
pub fn push_tag(out: &mut Vec<u8>, tag: u64) -> Result<(), AllocError>
    ensures ok { OnOk result (out.new.items ≡ out.old.items ++ tag_text tag) }
{
    push_number(out, tag / (1 << 36))?;
    out.push(b'.')?;
    push_number(out, tag / (1 << 20) % (1 << 16))?;
    out.push(b'.')?;
    push_number(out, tag % (1 << 20))
}

fn push_value(out: &mut Vec<u8>, value: &Value) -> Result<(), AllocError>
    ensures ok { OnOk result (out.new.items ≡ out.old.items ++ value_text value.now) }
{
    out.push(b'=')?;
    push_coded(out, value.bytes.items())
}

fn push_key(out: &mut Vec<u8>, key: &Key) -> Result<(), AllocError>
    ensures ok { OnOk result (out.new.items ≡ out.old.items ++ coded key.now) }
{
    push_coded(out, key.bytes())
}

/// Puts the text of a reply at the end.
pub fn push_reply(out: &mut Vec<u8>, reply: &Reply) -> Result<(), AllocError>
    ensures ok { OnOk result (out.new.items ≡ out.old.items ++ reply_text reply.now) }
{
    match reply {
        Reply::Stored { tag } => {
            out.extend_from_slice(b"stored ")?;
            push_tag(out, *tag)
        }
        Reply::Found { tag, value } => {
            out.extend_from_slice(b"found ")?;
            push_tag(out, *tag)?;
            out.push(b' ')?;
            push_value(out, value)
        }
        Reply::Absent => out.extend_from_slice(b"absent"),
        Reply::Deleted { tag } => {
            out.extend_from_slice(b"deleted ")?;
            push_tag(out, *tag)
        }
        Reply::Differs { tag } => {
            out.extend_from_slice(b"differs ")?;
            push_tag(out, *tag)
        }
    }
}

/// Puts the text of a call at the end.
pub fn push_call(out: &mut Vec<u8>, call: &Call) -> Result<(), AllocError>
    ensures ok { OnOk result (out.new.items ≡ out.old.items ++ call_text call.now) }
{
    match call {
        Call::Get { key } => {
            out.extend_from_slice(b"get ")?;
            push_key(out, key)
        }
        Call::Put { key, value } => {
            out.extend_from_slice(b"put ")?;
            push_key(out, key)?;
            out.push(b' ')?;
            push_value(out, value)
        }
        Call::Delete { key } => {
            out.extend_from_slice(b"delete ")?;
            push_key(out, key)
        }
        Call::Swap {
            key,
            expected,
            value,
        } => {
            out.extend_from_slice(b"swap ")?;
            push_key(out, key)?;
            out.push(b' ')?;
            push_tag(out, *expected)?;
            out.push(b' ')?;
            push_value(out, value)
        }
    }
}
