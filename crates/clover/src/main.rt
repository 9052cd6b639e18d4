//! The program: it gives the top call the words behind its name, standard input and standard output,
//! and ends as `exit` says, with the status that the call answers.
#![tactic(auto)]

use clover_main::{Refusal, StdSink, StdSource, exit};
use std::env;
use std::io::ErrorKind;
use std::process::ExitCode;

fn main(rt: HostRuntime) -> ExitCode {
    let mut source = StdSource::make(rt.reader());
    let mut sink = StdSink::make(std::io::writer(&rt));
    exit(rt.alloc(), words(&rt), &mut source, &mut sink)
}

/// The words behind the program's name. Words that are no text are those of no command.
fn words(rt: &HostRuntime) -> Result<Vec<String>, Refusal> {
    match env::args(rt) {
        Ok(arguments) => arguments
            .skip(1)
            .collect(rt.alloc())
            .map_err(|_| Refusal::OutOfMemory),
        Err(error) if error.kind() == ErrorKind::OutOfMemory => Err(Refusal::OutOfMemory),
        Err(_) => Err(Refusal::BadWords),
    }
}
