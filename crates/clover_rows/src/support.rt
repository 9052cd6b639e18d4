// Running a command over a source and a sink in memory.

use clover_main::{MemorySink, MemorySource, NumberList, clover};
use clover_script::Bulk;
use std::alloc::Global;
use std::test::Fail;

/// A put and a get, which several tests replay.
pub(crate) const SCRIPT: &[u8] =
    b"pool nodes=1 buffers=4 slots=2 words=2 wear=3 clients=1 batch=2\n\
                                   call 1 put a =hello\n\
                                   call 1 get a\n";

/// What it prints.
pub(crate) const PRINTED: &[u8] = b"1 stored 0.0.0\n\
                                    1 found 0.0.0 =hello\n\
                                    history\n\
                                    h 1 1 1 put a =hello stored 0.0.0\n\
                                    h 1 1 2 get a found 0.0.0 =hello\n\
                                    accesses 22\n\
                                    end\n";

/// A list of these bytes.
pub(crate) fn bulk(alloc: Global, bytes: &[u8]) -> Result<Bulk, Fail> {
    let mut list = Bulk::make(alloc);
    for byte in bytes {
        list.push(*byte)?;
    }
    Ok(list)
}

/// A list of these numbers.
pub(crate) fn numbers(alloc: Global, numbers: &[u64]) -> Result<NumberList, Fail> {
    let mut list = NumberList::make(alloc);
    for number in numbers {
        list.push(*number)?;
    }
    Ok(list)
}

/// A list of these words.
pub(crate) fn words_of(alloc: Global, words: &[&str]) -> Result<Vec<String>, Fail> {
    let mut owned = Vec::new(alloc);
    for word in words {
        owned.push(String::from_str(alloc, word)?)?;
    }
    Ok(owned)
}

/// Runs the command of these words over a text, whose calls of these numbers fail, into a sink with
/// this room, whose calls of these numbers fail. Answers the status and the sink.
pub fn run(
    alloc: Global,
    words: &[&str],
    text: Bulk,
    failing_takes: &[u64],
    room: usize,
    failing_puts: &[u64],
) -> Result<(u8, MemorySink), Fail> {
    let owned = words_of(alloc, words)?;
    let mut source = MemorySource::make(text, numbers(alloc, failing_takes)?);
    let mut sink = MemorySink::make(alloc, room, numbers(alloc, failing_puts)?)?;
    let status = clover(alloc, &owned, &mut source, &mut sink);
    Ok((status, sink))
}
