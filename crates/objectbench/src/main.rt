//! An object bench over a Java machine of its own.
#![tactic(auto)]

mod loading;
mod top;

use bj_core::NoMemory;
use bj_io::{Reading, WallClock, Writing};
use bj_session::Ends;
use std::alloc::AllocError;
use std::process::ExitCode;
use std::{env, io};
use top::run_alone;

#[cfg(test)]
mod bench_tests;
#[cfg(test)]
mod test_ends;
#[cfg(test)]
mod tests;

/// The status for want of memory.
const NO_MEMORY: u8 = 5;

/// The words behind the program's name. Words that are no UTF-8 are none, and so a faulty command line.
fn words_of(rt: &HostRuntime) -> Result<Vec<String>, NoMemory> {
    let alloc = rt.alloc();
    let args = match env::args(rt) {
        Ok(args) => args,
        Err(fault) if fault.kind() == io::ErrorKind::OutOfMemory => return Err(NoMemory),
        Err(_) => return Ok(Vec::new(alloc)),
    };
    let words: Result<Vec<String>, AllocError> = args.skip(1).collect(alloc);
    Ok(words?)
}

fn main(rt: HostRuntime) -> ExitCode {
    let words = match words_of(&rt) {
        Ok(words) => words,
        Err(NoMemory) => return ExitCode::from(NO_MEMORY),
    };
    let ends = Ends {
        source: Reading::new(rt.reader()),
        sink: Writing::new(io::writer(&rt)),
        clock: WallClock::new(&rt),
    };
    let finish = run_alone(rt.alloc(), words.as_slice(), ends);
    ExitCode::from(finish.status)
}
