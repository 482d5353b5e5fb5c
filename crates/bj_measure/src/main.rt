//! What the benchmark of the reader and the printer of files runs: it reads a file of Java from its input, and its status tells whether that
//! is a class. With the word `print` behind its name it also prints the class, into memory alone.
#![tactic(auto)]

use bj_base::{Name, NoMemory, Refusal};
use bj_io::{Poll, Reading, Source};
use bj_lex::{Tokens, tokens};
use bj_parse::class_of;
use bj_print::print_class;
use bj_tree::ClassTree;
use std::alloc::Global;
use std::env;
use std::process::ExitCode;

/// The status where the text is a class.
const CLASS: u8 = 0;

/// The status where it has a fault.
const FAULT: u8 = 1;

/// The status for want of memory, and where the text is longer than any that is measured.
const NO_MEMORY: u8 = 5;

/// How many bytes a text may have.
const MOST_BYTES: usize = 100_000_000;

/// How many bytes are asked for at a time.
const PIECE: usize = 65_536;

/// How many pieces are read at most.
const MOST_PIECES: usize = 10_000;

/// Lets a tree go. Its drop stands here alone, so that no caller's proof goes through it.
fn let_go(_tree: ClassTree) {}

/// All bytes of a source, as far as it gives them at once.
fn read_all<S: Source>(alloc: Global, source: &mut S) -> Result<Vec<u8>, NoMemory> {
    let mut text = Vec::new(alloc);
    let mut buffer = [0; PIECE];
    for _turn in 0..MOST_PIECES {
        match source.poll(&mut buffer) {
            Poll::Got(count) => {
                if text.extend_from_slice(&buffer[..count]).is_err() {
                    return Err(NoMemory);
                }
            }
            _ => return Ok(text),
        }
    }
    Ok(text)
}

/// The status for a class, which is printed where that is asked.
fn status_of_class(alloc: Global, tree: &ClassTree, prints: bool) -> u8 {
    if prints && print_class(alloc, tree).is_err() {
        return NO_MEMORY;
    }
    CLASS
}

/// The status for the tokens of a text.
fn status_of(alloc: Global, tokens: &Tokens, prints: bool) -> u8 {
    match class_of(alloc, tokens) {
        Ok(tree) => {
            let status = status_of_class(alloc, &tree, prints);
            let_go(tree);
            status
        }
        Err(Refusal::Fault(_)) => FAULT,
        Err(Refusal::NoMemory) => NO_MEMORY,
    }
}

/// The status for a text.
fn status_in(alloc: Global, text: &[u8], prints: bool) -> u8 {
    if text.len() > MOST_BYTES {
        return NO_MEMORY;
    }
    let class = match Name::from_slice(alloc, b"A") {
        Ok(class) => class,
        Err(_) => return NO_MEMORY,
    };
    match tokens(alloc, &class, text) {
        Ok(read) => status_of(alloc, &read, prints),
        Err(Refusal::Fault(_)) => FAULT,
        Err(Refusal::NoMemory) => NO_MEMORY,
    }
}

/// Whether the first word behind the program's name is `print`.
fn is_to_print(rt: &HostRuntime) -> bool {
    match env::args(rt) {
        Ok(args) => match args.skip(1).next() {
            Some(word) => word.as_str() == "print",
            None => false,
        },
        Err(_) => false,
    }
}

fn main(rt: HostRuntime) -> ExitCode {
    let prints = is_to_print(&rt);
    let mut source = Reading::new(rt.reader());
    match read_all(rt.alloc(), &mut source) {
        Ok(text) => ExitCode::from(status_in(rt.alloc(), text.as_slice(), prints)),
        Err(_) => ExitCode::from(NO_MEMORY),
    }
}
