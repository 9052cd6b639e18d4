// The edge of the program over a reader and a writer that make short, failed and long calls: what comes in is what was
// there, what goes out is the whole text or a front of it, and each failed call is told by the status.

use crate::support::{PRINTED, SCRIPT, words_of};
use clover_main::{StdSink, StdSource, clover, exit};
use std::alloc::Global;
use std::io::{Error, ErrorKind, Read, Write};
use std::process::{Abort, ExitCode};
use std::test::Fail;

const FAILED_READ: &[u8] = b"error read\n";

// How many bytes a call moves at most, and the number of the call that fails, counted from 1.
#[derive(Clone, Copy)]
struct Calls {
    most: usize,
    failing: u64,
}

// A reader of a text.
#[derive(Drop)]
struct Pieces {
    text: &'static [u8],
    calls: Calls,
    made: u64,
}

impl Read for Pieces {
    fn read(&mut self, buf: &mut [u8]) -> Result<usize, Error> {
        self.made = self.made.saturating_add(1);
        if self.made == self.calls.failing {
            return Err(Error::from(ErrorKind::Other));
        }
        let count = self.calls.most.min(self.text.len()).min(buf.len());
        buf[..count].copy_from_slice(&self.text[..count]);
        self.text = &self.text[count..];
        Ok(count)
    }
}

// A writer that keeps what it was given.
#[derive(Drop)]
struct Kept {
    bytes: Vec<u8>,
    calls: Calls,
    made: u64,
}

impl Write for Kept {
    fn write(&mut self, buf: &[u8]) -> Result<usize, Error> {
        self.made = self.made.saturating_add(1);
        if self.made == self.calls.failing {
            return Err(Error::from(ErrorKind::Other));
        }
        let count = self.calls.most.min(buf.len());
        match self.bytes.extend_from_slice(&buf[..count]) {
            Ok(()) => Ok(count),
            Err(_) => Err(Error::from(ErrorKind::OutOfMemory)),
        }
    }

    fn flush(&mut self) -> Result<(), Error> {
        Ok(())
    }
}

fn source(text: &'static [u8], calls: Calls) -> StdSource<Pieces> {
    StdSource::make(Pieces {
        text,
        calls,
        made: 0,
    })
}

fn sink(alloc: Global, calls: Calls) -> StdSink<Kept> {
    StdSink::make(Kept {
        bytes: Vec::new(alloc),
        calls,
        made: 0,
    })
}

// As many bytes as there is room for, one, and some.
const MOST: [usize; 4] = [1_000_000, 1, 2, 37];

const STEADY: Calls = Calls {
    most: 1_000_000,
    failing: 0,
};

// Calls of which none fails.
fn at_most(most: usize) -> Calls {
    Calls { most, failing: 0 }
}

// Over such calls the script ends with this status, and these bytes were written.
fn assert_ends(
    rt: &impl Abort,
    alloc: Global,
    read: Calls,
    written: Calls,
    status: u8,
    bytes: &[u8],
) -> Result<(), Fail> {
    let words = words_of(alloc, &["replay"])?;
    let mut from = source(SCRIPT, read);
    let mut to = sink(alloc, written);
    assert_eq!(rt; clover(alloc, &words, &mut from, &mut to), status);
    assert_eq!(rt; &to.inner().bytes[..], bytes);
    Ok(())
}

#[test]
fn short_and_long_calls_lose_no_byte(rt: HostRuntime) -> Result<(), Fail> {
    for read in &MOST {
        for written in &MOST {
            let (read, written) = (at_most(*read), at_most(*written));
            assert_ends(&rt, rt.alloc(), read, written, 0, PRINTED)?;
        }
    }
    Ok(())
}

#[test]
fn a_failed_read_is_no_end(rt: HostRuntime) -> Result<(), Fail> {
    // Three calls give the text, and a fourth finds its end.
    for failing in 1..5u64 {
        let read = Calls { most: 37, failing };
        assert_ends(&rt, rt.alloc(), read, STEADY, 2, FAILED_READ)?;
    }
    Ok(())
}

#[test]
fn a_failed_write_leaves_a_front(rt: HostRuntime) -> Result<(), Fail> {
    for failing in 1..4u64 {
        let front = (failing as usize - 1) * 10;
        let written = Calls { most: 10, failing };
        assert_ends(&rt, rt.alloc(), STEADY, written, 3, &PRINTED[..front])?;
    }
    Ok(())
}

#[test]
fn a_write_that_takes_nothing_failed(rt: HostRuntime) -> Result<(), Fail> {
    assert_ends(&rt, rt.alloc(), STEADY, at_most(0), 3, b"")
}

#[test]
fn the_program_ends_with_the_status_of_its_command(rt: HostRuntime) -> Result<(), Fail> {
    let alloc = rt.alloc();
    let mut to = sink(alloc, STEADY);
    let replay = words_of(alloc, &["replay"])?;
    assert_eq!(rt;
        exit(alloc, Ok(replay), &mut source(SCRIPT, STEADY), &mut to),
        ExitCode::from(0)
    );
    let replay = words_of(alloc, &["replay"])?;
    let failing = Calls {
        most: 37,
        failing: 1,
    };
    assert_eq!(rt;
        exit(alloc, Ok(replay), &mut source(SCRIPT, failing), &mut to),
        ExitCode::from(2)
    );
    let other = words_of(alloc, &["play"])?;
    assert_eq!(rt;
        exit(alloc, Ok(other), &mut source(SCRIPT, STEADY), &mut to),
        ExitCode::from(6)
    );
    Ok(())
}
