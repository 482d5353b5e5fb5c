//! What `pad` does with its lines, and what other words are told.

use crate::test_ends::{Done, dismiss, ends_of, faulty_ends, has_written, wrote};
use crate::top::run_alone;
use bj_core::{Entry, NoMemory, Numbers, Seq};
use bj_machine::Log;
use std::alloc::Global;
use std::test::*;

/// The numbers of a list.
fn numbers(alloc: Global, items: &[u64]) -> Result<Numbers, NoMemory> {
    Ok(Seq::from_vec(Vec::from_slice(alloc, items)?))
}

/// A word alone.
fn one_word(alloc: Global, word: &str) -> Result<Vec<String>, NoMemory> {
    let word = String::from_str(alloc, word)?;
    match vec![in alloc; word] {
        Ok(words) => Ok(words),
        Err(_) => Err(NoMemory),
    }
}

/// What a word alone does with an input.
fn run_word(alloc: Global, word: &str, input: &[u8]) -> Result<Done, NoMemory> {
    let words = one_word(alloc, word)?;
    let ends = ends_of(alloc, input)?;
    Ok(run_alone(alloc, words.as_slice(), ends))
}

/// Whether `pad` answers an input so, with status 0.
fn writes(alloc: Global, input: &[u8], output: &[u8]) -> bool {
    wrote(run_word(alloc, "pad", input), 0, output)
}

/// Whether these are the five entries of a line of `pad`: the line, its silent wait, its two acts, and the end of the wait.
fn has_five_entries(log: &Log) -> bool {
    log.len() == 5
        && matches!(log.entry(1), Entry::Line { .. })
        && matches!(log.entry(2), Entry::Pause)
        && matches!(log.entry(3), Entry::Act { .. })
        && matches!(log.entry(4), Entry::Act { .. })
        && matches!(log.entry(5), Entry::Woke { .. })
}

#[test]
fn a_codepad_line_is_answered_by_a_history_of_five_entries(rt: HostRuntime) {
    let found = match run_word(rt.alloc(), "pad", b"pad 1 + 2 * 3") {
        Ok(finish) => {
            let found = has_written(&finish, 0, b"= started\n! 7 (int)\n")
                && has_five_entries(&finish.log);
            dismiss(finish);
            found
        }
        Err(_) => false,
    };
    assert!(rt; found);
}

/// Inputs of `pad`, with what is written.
const OUTPUTS: [(&[u8], &[u8]); 24] = [
    (b"", b""),
    (b"pad 2147483647 + 1\n", b"= started\n! -2147483648 (int)\n"),
    (b"pad -(2 + 3) * 4\n", b"= started\n! -20 (int)\n"),
    (b"pad 7 - 2 - 1\n", b"= started\n! 4 (int)\n"),
    (b"pad 65536 * 65536 + 5\n", b"= started\n! 5 (int)\n"),
    (b"pad 1 / 0\n", b"= not built\n"),
    (b"pad 2147483648\n", b"= fault 1:1 wide\n"),
    (b"pad (1\n", b"= fault 1:3 syntax\n"),
    (b"pad   1 +\r\n", b"= fault 1:4 syntax\n"),
    (b"pad \"a\"\n", b"= not built\n"),
    (b"pad 0x10\n", b"= not built\n"),
    (b"pad int x = 5;\n", b"= not built\n"),
    (b"pad 1.5\n", b"= fault 1:1 profile\n"),
    (
        b"pad /* a\npad 3\n",
        b"= fault 1:1 open\n= started\n! 3 (int)\n",
    ),
    (b"\n  \r\npad 3\n", b"= started\n! 3 (int)\n"),
    (
        b"pad 1\r\npad 2",
        b"= started\n! 1 (int)\n= started\n! 2 (int)\n",
    ),
    (b"pad 4\nquit\npad 5\n", b"= started\n! 4 (int)\n"),
    (b"flub\n", b"= bad line 1\n"),
    (b"  inspect\n", b"= bad line 3\n"),
    (b"pad\n", b"= bad line 4\n"),
    (b"pad  \n", b"= bad line 6\n"),
    (
        b"quit now\npad 6\n",
        b"= bad line 6\n= started\n! 6 (int)\n",
    ),
    (b"\x61\xff\n", b"= bad line 2\n"),
    (b"quit", b""),
];

#[test]
fn each_input_has_its_output(rt: HostRuntime) {
    let alloc = rt.alloc();
    for (input, output) in OUTPUTS {
        assert!(rt; writes(alloc, input, output));
    }
}

/// A line of `pad` with this many parentheses round a 1.
fn nested(alloc: Global, depth: usize) -> Result<Vec<u8>, Fail> {
    let mut line = Vec::from_slice(alloc, b"pad ".as_slice())?;
    for _ in 0..depth {
        line.push(b'(')?;
    }
    line.push(b'1')?;
    for _ in 0..depth {
        line.push(b')')?;
    }
    Ok(line)
}

#[test]
fn two_hundred_parentheses_are_read(rt: HostRuntime) -> Result<(), Fail> {
    let alloc = rt.alloc();
    let read = nested(alloc, 200)?;
    assert!(rt; writes(alloc, read.as_slice(), b"= started\n! 1 (int)\n"));
    let refused = nested(alloc, 201)?;
    assert!(rt; writes(alloc, refused.as_slice(), b"= fault 1:202 deep\n"));
    Ok(())
}

#[test]
fn a_line_past_its_greatest_length_is_bad_there(rt: HostRuntime) -> Result<(), Fail> {
    let alloc = rt.alloc();
    let mut input = vec![in alloc; b'x'; 65_537]?;
    input.extend_from_slice(b"\npad 1\n".as_slice())?;
    let output: &[u8] = b"= bad line 65537\n= started\n! 1 (int)\n";
    assert!(rt; writes(alloc, input.as_slice(), output));
    Ok(())
}

/// The calls that fail or find nothing, by their numbers, from 1.
#[derive(Clone, Copy)]
struct Faults<'a> {
    failing_polls: &'a [u64],
    empty_polls: &'a [u64],
    failing_puts: &'a [u64],
}

/// What `pad 1 + 2 * 3` does with these faults.
fn run_faulty(alloc: Global, faults: &Faults<'_>) -> Result<Done, NoMemory> {
    let words = one_word(alloc, "pad")?;
    let ends = faulty_ends(
        alloc,
        b"pad 1 + 2 * 3\n",
        numbers(alloc, faults.failing_polls)?,
        numbers(alloc, faults.empty_polls)?,
        numbers(alloc, faults.failing_puts)?,
    )?;
    Ok(run_alone(alloc, words.as_slice(), ends))
}

/// Whether `pad 1 + 2 * 3` ends with this status and wrote this, where these calls fail or find nothing.
fn ends_so(
    alloc: Global,
    failing_polls: &[u64],
    empty_polls: &[u64],
    failing_puts: &[u64],
    status: u8,
    output: &[u8],
) -> bool {
    let faults = Faults {
        failing_polls,
        empty_polls,
        failing_puts,
    };
    wrote(run_faulty(alloc, &faults), status, output)
}

#[test]
fn each_fault_has_its_status(rt: HostRuntime) {
    let alloc = rt.alloc();
    let started: &[u8] = b"= started\n";
    let all: &[u8] = b"= started\n! 7 (int)\n";
    assert!(rt; ends_so(alloc, &[], &[], &[2], 4, started));
    assert!(rt; ends_so(alloc, &[], &[], &[1], 4, b""));
    assert!(rt; ends_so(alloc, &[1], &[], &[], 3, b""));
    assert!(rt; ends_so(alloc, &[2], &[], &[], 3, all));
    assert!(rt; ends_so(alloc, &[], &[1], &[], 8, b""));
    assert!(rt; ends_so(alloc, &[], &[2], &[], 8, all));
    assert!(rt; ends_so(alloc, &[], &[], &[], 0, all));
}

/// Whether `pad` answers an input with nothing and this status.
fn ends_silently(alloc: Global, input: &[u8], status: u8) -> bool {
    wrote(run_word(alloc, "pad", input), status, b"")
}

#[test]
fn an_input_of_too_many_lines_is_refused(rt: HostRuntime) -> Result<(), Fail> {
    let alloc = rt.alloc();
    let mut lines = vec![in alloc; b'\n'; 100_000]?;
    assert!(rt; ends_silently(alloc, lines.as_slice(), 0));
    lines.push(b'x')?;
    assert!(rt; ends_silently(alloc, lines.as_slice(), 7));
    Ok(())
}

#[test]
fn other_words_are_told_the_usage(rt: HostRuntime) {
    let usage: &[u8] =
        b"usage: objectbench bench FOLDER [--runners N] [--actions N] | check FOLDER | test FOLDER [CLASS] | demo N | pad\n";
    assert!(rt; wrote(run_word(rt.alloc(), "bench", b""), 2, usage));
}
