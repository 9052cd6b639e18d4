// Text that is put together piece by piece, as scripts and what they must print are.

use crate::support::bulk;
use clover_script::{Bulk, push_number};
use std::alloc::Global;
use std::test::Fail;

/// A pool line and the lines behind it; what the actors are told, the history, and how many accesses were made.
pub(crate) type Session = (&'static str, &'static str, &'static str, &'static str, u64);

/// A session's script and what it prints.
pub(crate) fn texts(alloc: Global, session: Session) -> Result<(Text, Text), Fail> {
    let (pool, lines, told, history, accesses) = session;
    let mut script = Text::make(alloc);
    script.say(pool)?;
    script.say(lines)?;
    let mut printed = Text::make(alloc);
    printed.say(told)?;
    printed.say("history\n")?;
    printed.say(history)?;
    printed.say("accesses ")?;
    printed.number(accesses)?;
    printed.say("\nend\n")?;
    Ok((script, printed))
}

/// A text that grows.
#[derive(Drop)]
pub(crate) struct Text {
    bytes: Vec<u8>,
}

impl Text {
    pub(crate) fn make(alloc: Global) -> Text {
        Text {
            bytes: Vec::new(alloc),
        }
    }

    /// Puts a piece behind what there is.
    pub(crate) fn say(&mut self, piece: &str) -> Result<(), Fail> {
        self.bytes.extend_from_slice(piece.as_bytes())?;
        Ok(())
    }

    /// Puts a number behind what there is.
    pub(crate) fn number(&mut self, number: u64) -> Result<(), Fail> {
        push_number(&mut self.bytes, number)?;
        Ok(())
    }

    /// Puts the tag of a buffer of node 0 at generation 0.
    pub(crate) fn tag(&mut self, index: u64) -> Result<(), Fail> {
        self.say("0.")?;
        self.number(index)?;
        self.say(".0")
    }

    pub(crate) fn bytes(&self) -> &[u8] {
        &self.bytes
    }

    /// The text as an input.
    pub(crate) fn input(&self, alloc: Global) -> Result<Bulk, Fail> {
        bulk(alloc, &self.bytes)
    }
}
