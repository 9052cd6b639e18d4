// The printed text of a run, piece by piece, each built at the end of a list of bytes. Every error here is want
// of memory, and then a front of the piece may stand there.
ghost use Rattle.std.specs.Prelude.{◌≡◌, ◌++◌, true, flat_map, OnOk};
ghost use Rattle.clover_script.specs.Text.{told_line, entry_line};
ghost use Rattle.clover_event.specs.Text.{actor_text, operand_text, exchange_text, act_text, back_text, came_text, access_line, refusal_text, note_line, ending};

use crate::event::{CallRefusal, Note};
use clover_map::Entry;
use clover_rule::{Access, Act, Actor};
use clover_script::{
    push_behind, push_busy, push_entry, push_hex, push_linked, push_none, push_number, push_reply,
    push_too_long, push_unreached, push_word,
};
use clover_words::{Side, Word};
use std::alloc::AllocError;

/// Puts the line of an access: who made it, what it did to which word, and what came back.
pub fn push_access(out: &mut Vec<u8>, access: &Access) -> Result<(), AllocError>
    ensures ok { OnOk result (out.new.items ≡ out.old.items ++ access_line access.now) }
{
    out.extend_from_slice(b"a ")?;
    push_actor(out, &access.actor)?;
    out.push(b' ')?;
    push_act(out, &access.act)?;
    push_came(out, access.refused, &access.act)?;
    out.push(b'\n')?;
    Ok(())
}

fn push_actor(out: &mut Vec<u8>, actor: &Actor) -> Result<(), AllocError>
    ensures ok { OnOk result (out.new.items ≡ out.old.items ++ actor_text actor.now) }
{
    match actor {
        Actor::Client(number) => push_number(out, u64::from(*number)),
        Actor::Server => out.extend_from_slice(b"s"),
        Actor::Restart => out.extend_from_slice(b"r"),
    }
}

fn push_act(out: &mut Vec<u8>, act: &Act) -> Result<(), AllocError>
    ensures ok { OnOk result (out.new.items ≡ out.old.items ++ act_text act.now) }
{
    match act {
        Act::Load { word, .. } => {
            out.extend_from_slice(b"load ")?;
            push_word(out, *word, Side::Current)
        }
        Act::Store { word, side, value } => {
            out.extend_from_slice(b"store ")?;
            push_word(out, *word, *side)?;
            push_operand(out, *value)
        }
        Act::Exchange {
            word,
            expected,
            new,
            ..
        } => push_exchange(out, *word, *expected, *new),
        Act::Raise { word, value, .. } => {
            out.extend_from_slice(b"raise ")?;
            push_word(out, *word, Side::Flushed)?;
            push_operand(out, *value)
        }
    }
}

// Puts a number that an access was given.
fn push_operand(out: &mut Vec<u8>, number: u64) -> Result<(), AllocError>
    ensures ok { OnOk result (out.new.items ≡ out.old.items ++ operand_text number) }
{
    out.push(b' ')?;
    push_hex(out, number)
}

fn push_exchange(out: &mut Vec<u8>, word: Word, expected: u64, new: u64) -> Result<(), AllocError>
    ensures ok { OnOk result (out.new.items ≡ out.old.items ++ exchange_text word expected new) }
{
    out.extend_from_slice(b"exchange ")?;
    push_word(out, word, Side::Current)?;
    push_operand(out, expected)?;
    push_operand(out, new)
}

fn push_came(out: &mut Vec<u8>, refused: bool, act: &Act) -> Result<(), AllocError>
    ensures ok { OnOk result (out.new.items ≡ out.old.items ++ came_text refused act.now) }
{
    if refused {
        return out.extend_from_slice(b" refused");
    }
    match act {
        Act::Load { got, .. } => push_back(out, *got),
        Act::Store { .. } => Ok(()),
        Act::Exchange { old, .. } | Act::Raise { old, .. } => push_back(out, *old),
    }
}

// Puts a number that came back.
fn push_back(out: &mut Vec<u8>, number: u64) -> Result<(), AllocError>
    ensures ok { OnOk result (out.new.items ≡ out.old.items ++ back_text number) }
{
    out.extend_from_slice(b" = ")?;
    push_hex(out, number)
}

/// Puts the line of what an event came to; of `Quiet` nothing.
pub fn push_note(out: &mut Vec<u8>, note: &Note) -> Result<(), AllocError>
    ensures ok { OnOk result (out.new.items ≡ out.old.items ++ note_line note.now) }
{
    match note {
        Note::Quiet => Ok(()),
        Note::Answered { client, reply } => {
            push_number(out, u64::from(*client))?;
            out.push(b' ')?;
            push_reply(out, reply)?;
            out.push(b'\n')?;
            Ok(())
        }
        Note::Refused { client, refusal } => push_refusal(out, *client, refusal),
        Note::Busy { actor } => push_busy(out, *actor),
        Note::Missing { actor } => push_none(out, *actor),
    }
}

fn push_refusal(out: &mut Vec<u8>, client: u32, refusal: &CallRefusal) -> Result<(), AllocError>
    ensures ok { OnOk result (out.new.items ≡ out.old.items ++ told_line client (refusal_text refusal.now)) }
{
    match refusal {
        CallRefusal::Unreached => push_unreached(out, client),
        CallRefusal::Linked { tag } => push_linked(out, client, *tag),
        CallRefusal::Behind { turns } => push_behind(out, client, *turns),
        CallRefusal::TooLong { length, room } => push_too_long(out, client, *length, *room),
    }
}

/// Puts what stands behind the lines of a run's last record: the history, and how many accesses were made.
pub fn push_ending(out: &mut Vec<u8>, history: &[Entry], made: u64) -> Result<(), AllocError>
    ensures ok { OnOk result (out.new.items ≡ out.old.items ++ ending history.now made) }
{
    out.extend_from_slice(b"history\n")?;
    push_history(out, history)?;
    out.extend_from_slice(b"accesses ")?;
    push_number(out, made)?;
    out.extend_from_slice(b"\nend\n")
}

fn push_history(out: &mut Vec<u8>, history: &[Entry]) -> Result<(), AllocError>
    ensures ok { OnOk result (out.new.items ≡ out.old.items ++ flat_map (entry_line 1 true) history.now) }
{
    for entry in history {
        push_entry(out, entry)?;
    }
    Ok(())
}
