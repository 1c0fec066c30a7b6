//! The program `euclidc`: words, files, answers.
#![tactic(auto)]

#[cfg(test)]
mod tests;

use euclidc_commands::{Status, run};
use shelf_io::{DirShelf, StdSink};
use std::env;
use std::io::ErrorKind;
use std::process::ExitCode;

// The status where a word of the system is not text.
const WORDS_NOT_TEXT: u8 = 8;

/// Runs the command that the words after the program's name ask for, over the real files, and ends with its status.
fn main(rt: HostRuntime) -> ExitCode {
    let args = match env::args(&rt) {
        Ok(args) => args,
        Err(error) if error.kind() == ErrorKind::OutOfMemory => {
            return ExitCode::from(Status::NoMemory.number());
        }
        Err(_) => return ExitCode::from(WORDS_NOT_TEXT),
    };
    let mut words = Vec::new(rt.alloc());
    for word in args.skip(1) {
        if words.push(word).is_err() {
            return ExitCode::from(Status::NoMemory.number());
        }
    }
    let mut shelf = DirShelf::new(&rt);
    let mut out = StdSink::new(&rt);
    run(rt.alloc(), &words, &mut shelf, &mut out)
}
