// An entry of a history over all runs, and its printed line.
ghost use Rattle.std.specs.Prelude.{◌≡◌, ◌++◌, true, OnOk};
ghost use Rattle.clover_script.specs.Text.{entry_line, run_entry_line, mark_text};

use crate::text::{push_call, push_number, push_reply};
use clover_map::Entry;
use std::alloc::AllocError;

/// An entry of the history of one of the runs of a script, which a power cut ends.
#[derive(Drop)]
pub struct RunEntry {
    /// The run's number, from 1.
    pub run: u64,
    pub entry: Entry,
    /// Whether the entry is there still: a power cut may have taken it.
    pub stands: bool,
    /// Whether an answer told of it: its call was answered, or its tag stands in an answer of its run.
    pub told: bool,
}

/// Puts the line of an entry at the end, ended by LF: `h`, or `x` where a power cut took it, and then its run and the
/// entry.
pub fn push_run_entry(out: &mut Vec<u8>, entry: &RunEntry) -> Result<(), AllocError>
    ensures ok { OnOk result (out.new.items ≡ out.old.items ++ run_entry_line entry.now) }
{
    push_line_of(out, entry.run, entry.stands, &entry.entry)
}

/// Puts the line of an entry of the first run that stands at the end, ended by LF.
pub fn push_entry(out: &mut Vec<u8>, entry: &Entry) -> Result<(), AllocError>
    ensures ok { OnOk result (out.new.items ≡ out.old.items ++ entry_line 1 true entry.now) }
{
    push_line_of(out, 1, true, entry)
}

fn push_line_of(out: &mut Vec<u8>, run: u64, stands: bool, entry: &Entry) -> Result<(), AllocError>
    ensures ok { OnOk result (out.new.items ≡ out.old.items ++ entry_line run stands entry.now) }
{
    push_mark(out, stands)?;
    push_number(out, run)?;
    out.push(b' ')?;
    push_number(out, u64::from(entry.client))?;
    out.push(b' ')?;
    push_number(out, entry.number)?;
    out.push(b' ')?;
    push_call(out, &entry.call)?;
    out.push(b' ')?;
    push_reply(out, &entry.reply)?;
    out.push(b'\n')?;
    Ok(())
}

// Puts the mark of an entry, by whether it stands.
fn push_mark(out: &mut Vec<u8>, stands: bool) -> Result<(), AllocError>
    ensures ok { OnOk result (out.new.items ≡ out.old.items ++ mark_text stands) }
{
    if stands {
        out.extend_from_slice(b"h ")
    } else {
        out.extend_from_slice(b"x ")
    }
}
