// The printed line of what an event came to, built at the end of a list of bytes. Every error here is want of memory,
// and then a front of the piece may stand there.
ghost use Rattle.std.specs.Prelude.{◌≡◌, ◌++◌, flat_map, OnOk};
ghost use Rattle.clover_words.specs.Tag.{tag_number};
ghost use Rattle.clover_alloc.specs.Batch.{tags_of};
ghost use Rattle.clover_script.specs.Text.{told_line};
ghost use Rattle.clover_event.specs.Text.{refusal_text};
ghost use Rattle.clover_run.specs.Text.{full_text, recycled_text, swept_text, grant_line, noted, spaced_tag};

use crate::event::Note;
use clover_alloc::Batch;
use clover_event::CallRefusal;
use clover_script::{
    push_behind, push_busy, push_linked, push_none, push_number, push_reply, push_tag,
    push_too_long, push_unreached,
};
use clover_words::Tag;
use std::alloc::AllocError;

/// Puts the line of what an event came to; of `Quiet` and `Waits` nothing, and of a grant only with the trace: the batch
/// is the one that was handed out last, which is that of a grant.
pub fn push_note(
    out: &mut Vec<u8>,
    trace: bool,
    note: &Note,
    batch: &Batch,
) -> Result<(), AllocError>
    ensures ok { OnOk result (out.new.items ≡ out.old.items ++ noted trace (tags_of batch.now) note.now) }
{
    match note {
        Note::Quiet | Note::Waits => Ok(()),
        Note::Answered { client, reply } => {
            push_number(out, u64::from(*client))?;
            out.push(b' ')?;
            push_reply(out, reply)?;
            out.push(b'\n')?;
            Ok(())
        }
        Note::Refused { client, refusal } => push_refusal(out, *client, refusal),
        Note::Full {
            client,
            bound,
            worn,
            out: handed,
        } => push_full(out, *client, *bound, *worn, *handed),
        Note::NoSlot { client } => push_told(out, *client, b"noslot"),
        Note::Granted { client, names } => {
            if trace {
                push_grant(out, *client, batch.items(), *names)
            } else {
                Ok(())
            }
        }
        Note::Recycled { old } => push_recycled(out, *old),
        Note::Unlinked => push_told(out, 0, b"unlinked"),
        Note::Unbound => push_told(out, 0, b"unbound"),
        Note::Swept { count } => push_swept(out, *count),
        Note::Unreached => push_unreached(out, 0),
        Note::Busy { actor } => push_busy(out, *actor),
        Note::Missing { actor } => push_none(out, *actor),
    }
}

fn push_refusal(out: &mut Vec<u8>, client: u32, refusal: &CallRefusal) -> Result<(), AllocError>
    ensures ok { OnOk result (out.new.items ≡ out.old.items ++ told_line client (refusal_text refusal.now)) }
{
    match refusal {
        CallRefusal::Unreached => push_unreached(out, client),
        CallRefusal::Linked { tag } => push_linked(out, client, *tag),
        CallRefusal::Behind { turns } => push_behind(out, client, *turns),
        CallRefusal::TooLong { length, room } => push_too_long(out, client, *length, *room),
    }
}

// Puts a line of this actor.
fn push_told(out: &mut Vec<u8>, actor: u32, words: &[u8]) -> Result<(), AllocError>
    ensures ok { OnOk result (out.new.items ≡ out.old.items ++ told_line actor words.now) }
{
    push_number(out, u64::from(actor))?;
    out.push(b' ')?;
    out.extend_from_slice(words)?;
    out.push(b'\n')?;
    Ok(())
}

// Puts the line that no buffer is free, with the numbers of those that are bound, worn, and handed out.
fn push_full(
    out: &mut Vec<u8>,
    client: u32,
    bound: u32,
    worn: u32,
    handed: u32,
) -> Result<(), AllocError>
    ensures ok { OnOk result (out.new.items ≡ out.old.items ++ told_line client (full_text bound worn handed)) }
{
    push_number(out, u64::from(client))?;
    out.extend_from_slice(b" full ")?;
    push_number(out, u64::from(bound))?;
    out.push(b' ')?;
    push_number(out, u64::from(worn))?;
    out.push(b' ')?;
    push_number(out, u64::from(handed))?;
    out.push(b'\n')?;
    Ok(())
}

fn push_recycled(out: &mut Vec<u8>, old: Tag) -> Result<(), AllocError>
    ensures ok { OnOk result (out.new.items ≡ out.old.items ++ told_line 0 (recycled_text (tag_number old))) }
{
    push_number(out, 0)?;
    out.extend_from_slice(b" recycled ")?;
    push_tag(out, old.number())?;
    out.push(b'\n')?;
    Ok(())
}

fn push_swept(out: &mut Vec<u8>, count: u64) -> Result<(), AllocError>
    ensures ok { OnOk result (out.new.items ≡ out.old.items ++ told_line 0 (swept_text count)) }
{
    push_number(out, 0)?;
    out.extend_from_slice(b" swept ")?;
    push_number(out, count)?;
    out.push(b'\n')?;
    Ok(())
}

// Puts the line of a grant: the number of new names, and the tags.
fn push_grant(out: &mut Vec<u8>, client: u32, tags: &[Tag], names: u32) -> Result<(), AllocError>
    ensures ok { OnOk result (out.new.items ≡ out.old.items ++ grant_line client tags.now names) }
{
    out.extend_from_slice(b"g ")?;
    push_number(out, u64::from(client))?;
    out.push(b' ')?;
    push_number(out, u64::from(names))?;
    push_tags(out, tags)?;
    out.push(b'\n')?;
    Ok(())
}

// Puts tags, each behind a space.
fn push_tags(out: &mut Vec<u8>, tags: &[Tag]) -> Result<(), AllocError>
    ensures ok { OnOk result (out.new.items ≡ out.old.items ++ flat_map spaced_tag tags.now) }
{
    for tag in tags {
        out.push(b' ')?;
        push_tag(out, tag.number())?;
    }
    Ok(())
}
