//! The program `renju`: it makes the real devices, hands the words after its name to `run_renju`, and exits with the
//! status that it answers.
#![tactic(auto)]

use renju_cli::{Status, run_renju};
use renju_io::{RealShelf, RealSink, RealSource};
use std::alloc::AllocError;
use std::env;
use std::io::ErrorKind;
use std::process::ExitCode;

fn main(rt: HostRuntime) -> ExitCode {
    match words(&rt) {
        Ok(words) => {
            let mut input = RealSource::new(rt.stdin());
            let mut output = RealSink::new(rt.stdout());
            let mut shelf = RealShelf::new(&rt);
            ExitCode::from(run_renju(
                rt.alloc(),
                words.as_slice(),
                &mut input,
                &mut output,
                &mut shelf,
            ))
        }
        Err(_) => ExitCode::from(Status::Memory.number()),
    }
}

/// The words after the program's name. Words that cannot be read, as one that is no text, are as no words, which have no
/// form; want of memory is handed on.
fn words(rt: &HostRuntime) -> Result<Vec<String>, AllocError> {
    match env::args(rt) {
        Ok(words) => words.skip(1).collect(rt.alloc()),
        Err(error) if error.kind() == ErrorKind::OutOfMemory => Err(AllocError),
        Err(_) => Ok(Vec::new(rt.alloc())),
    }
}
