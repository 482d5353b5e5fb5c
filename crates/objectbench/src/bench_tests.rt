//! What `bench` does with its lines.

use crate::test_ends::{Done, dismiss, ends_of, has_written, wrote};
use crate::top::{run_alone, serve};
use bj_core::{Action, Entry, HeapLimits, Limits, NoMemory, Reason};
use bj_history::Opening;
use bj_machine::Log;
use std::alloc::Global;
use std::test::*;

/// The words `bench p`.
fn bench_words(alloc: Global) -> Result<Vec<String>, NoMemory> {
    let bench = String::from_str(alloc, "bench")?;
    let folder = String::from_str(alloc, "p")?;
    match vec![in alloc; bench, folder] {
        Ok(words) => Ok(words),
        Err(_) => Err(NoMemory),
    }
}

/// What `bench p` does with an input.
fn bench(alloc: Global, input: &[u8]) -> Result<Done, NoMemory> {
    let words = bench_words(alloc)?;
    let ends = ends_of(alloc, input)?;
    Ok(run_alone(alloc, words.as_slice(), ends))
}

/// Whether `bench p` answers an input so, with status 0.
fn writes(alloc: Global, input: &[u8], output: &[u8]) -> bool {
    wrote(bench(alloc, input), 0, output)
}

/// What a bench does with an input that may do so many actions, and make so many objects beside the four of a new store.
fn bench_within(alloc: Global, acts: u64, objects: u32, input: &[u8]) -> Result<Done, NoMemory> {
    let heap = HeapLimits {
        objects: 4 + objects % 1000,
        cells: 1000,
    };
    let limits = Limits {
        acts,
        frames: 3,
        threads: 1,
        heap,
    };
    let ends = ends_of(alloc, input)?;
    Ok(serve(alloc, Opening { pad: false, limits }, ends))
}

#[test]
fn an_object_is_made_called_and_inspected(rt: HostRuntime) {
    let event_first: &[u8] =
        b"= started\n! c <Cell 5>\n! idle\n= started\n! 8 (int)\n= unknown x\n! idle\n= c <Cell 5>\n= int Cell.n = 8\n";
    let reply_first: &[u8] =
        b"= started\n! c <Cell 5>\n! idle\n= started\n= unknown x\n! 8 (int)\n! idle\n= c <Cell 5>\n= int Cell.n = 8\n";
    let input: &[u8] = b"new c Cell(5)\nwait\ncall c.add(3)\ninspect x\nwait\ninspect c\n";
    let found = match bench(rt.alloc(), input) {
        Ok(finish) => {
            let found = has_written(&finish, 0, event_first)
                || has_written(&finish, 0, reply_first);
            dismiss(finish);
            found
        }
        Err(_) => false,
    };
    assert!(rt; found);
}

/// Inputs of `bench`, with what is written.
const ANSWERS: [(&[u8], &[u8]); 42] = [
    (b"", b""),
    (b"\n  \n", b""),
    (b"wait\n", b"! idle\n"),
    (b"  wait  ", b"! idle\n"),
    (b"wait\nwait\n", b"! idle\n! idle\n"),
    (b"quit\nwait\n", b""),
    (b"pad 1 + 2 * 3\nwait\n", b"= started\n! 7 (int)\n! idle\n"),
    (b"flub\n", b"= bad line 1\n"),
    (b"compile\n", b"= bad line 1\n"),
    (b"inspect\n", b"= bad line 8\n"),
    (b"inspect a b\n", b"= bad line 11\n"),
    (b"new\n", b"= bad line 4\n"),
    (b"new x\n", b"= bad line 6\n"),
    (b"call\n", b"= bad line 5\n"),
    (b"quit now\n", b"= bad line 6\n"),
    (b"wait 5\n", b"= not built\n"),
    (b"wait jobs\n", b"= not built\n"),
    (b"new c Cell()\n", b"= not built\n"),
    (b"new c Thread(1)\n", b"= not built\n"),
    (b"new c1 Cell(1)\n", b"= not built\n"),
    (b"new Cell Cell(1)\n", b"= not built\n"),
    (b"new c Cell(1 / 1)\n", b"= not built\n"),
    (b"call c.get()\n", b"= not built\n"),
    (b"call c\n", b"= fault 1:1 syntax\n"),
    (b"call new Cell(1)\n", b"= fault 1:1 syntax\n"),
    (b"call 1 + 2\n", b"= fault 1:1 syntax\n"),
    (b"call c.get(\n", b"= fault 1:7 syntax\n"),
    (b"new x 5\n", b"= fault 1:1 syntax\n"),
    (b"new x Cell(3\n", b"= fault 1:7 syntax\n"),
    (b"new x Cell(3).get()\n", b"= fault 1:1 syntax\n"),
    (b"new x   int[3]\n", b"= fault 1:1 syntax\n"),
    (b"new c1 Cell(3\n", b"= not built\n"),
    (b"inspect x\n", b"= unknown x\n"),
    (b"inspect Cell\n", b"= not built\n"),
    (
        b"new c Cell(5)\ninspect c\n",
        b"= started\n! c <Cell 5>\n= c <Cell 5>\n= int Cell.n = 5\n",
    ),
    (
        b"new c Cell(5)\nnew c Cell(6)\ncall c.get()\n",
        b"= started\n! c <Cell 5>\n= taken c\n= started\n! 5 (int)\n",
    ),
    (
        b"new c Cell(5)\nnew c Cell(\n",
        b"= started\n! c <Cell 5>\n= taken c\n",
    ),
    (
        b"new c Cell(5)\ncall c.put(1)\ncall d.get()\n",
        b"= started\n! c <Cell 5>\n= not built\n= not built\n",
    ),
    (
        b"new a Cell(1)\nnew b Cell(2 * 3)\ncall b.add(1)\ncall a.get()\ninspect b\n",
        b"= started\n! a <Cell 5>\n= started\n! b <Cell 6>\n= started\n! 7 (int)\n= started\n! 1 (int)\n= b <Cell 6>\n= int Cell.n = 7\n",
    ),
    (
        b"new c Cell(2147483647)\ncall c . add ( 1 )\n",
        b"= started\n! c <Cell 5>\n= started\n! -2147483648 (int)\n",
    ),
    (
        b"new no Cell(1)\r\ninspect no",
        b"= started\n! no <Cell 5>\n= no <Cell 5>\n= int Cell.n = 1\n",
    ),
    (
        b"new c Cell(-1)\ncall c.add(-(2 + 3) * 4)\n",
        b"= started\n! c <Cell 5>\n= started\n! -21 (int)\n",
    ),
];

#[test]
fn each_line_of_the_bench_has_its_answer(rt: HostRuntime) {
    let alloc = rt.alloc();
    for (input, output) in ANSWERS {
        assert!(rt; writes(alloc, input, output));
    }
}

/// Whether these are the entries of an empty bench: the pause at the end and the end of its wait.
fn is_silent_wait(log: &Log) -> bool {
    log.len() == 2
        && matches!(log.entry(1), Entry::Pause)
        && matches!(
            log.entry(2),
            Entry::Woke {
                reason: Reason::Idle
            }
        )
        && log.action(1).is_none()
}

#[test]
fn an_empty_bench_ends_with_a_silent_wait(rt: HostRuntime) {
    let found = match bench(rt.alloc(), b"") {
        Ok(finish) => {
            let found = is_silent_wait(&finish.log);
            dismiss(finish);
            found
        }
        Err(_) => false,
    };
    assert!(rt; found);
}

/// Whether these actions stand beside the entries of `new c Cell(5)`, worked by hand: behind the line the point before the statement, the class,
/// the object, the points before and in the constructor, the field, the point behind it, and the end.
fn are_of_new_cell(log: &Log) -> bool {
    log.len() == 18
        && log.action(1).is_none()
        && matches!(log.action(2), Some(Action::Point(_)))
        && matches!(log.action(3), Some(Action::InitBegin { .. }))
        && matches!(log.action(4), Some(Action::InitEnd { .. }))
        && matches!(log.action(5), Some(Action::Make { class: 5 }))
        && matches!(log.action(6), Some(Action::Point(_)))
        && matches!(log.action(7), Some(Action::Point(_)))
        && matches!(log.action(8), Some(Action::Put { .. }))
        && matches!(log.action(9), Some(Action::Point(_)))
        && matches!(log.action(10), Some(Action::End { .. }))
}

/// Whether these actions stand beside the entries of `call c.get()` behind it: behind the line the points of the term, of the entry and of the
/// statement, the field and the end; and none beside the pause.
fn are_of_get(log: &Log) -> bool {
    log.len() == 18
        && log.action(11).is_none()
        && matches!(log.action(12), Some(Action::Point(_)))
        && matches!(log.action(13), Some(Action::Point(_)))
        && matches!(log.action(14), Some(Action::Point(_)))
        && matches!(log.action(15), Some(Action::Get { slot: 0, .. }))
        && matches!(log.action(16), Some(Action::End { .. }))
        && log.action(17).is_none()
}

#[test]
fn the_log_keeps_the_actions_of_a_new_object_and_a_call(rt: HostRuntime) {
    let found = match bench(rt.alloc(), b"new c Cell(5)\ncall c.get()\n") {
        Ok(finish) => {
            let found = are_of_new_cell(&finish.log) && are_of_get(&finish.log);
            dismiss(finish);
            found
        }
        Err(_) => false,
    };
    assert!(rt; found);
}

#[test]
fn a_bench_that_has_used_its_actions_is_busy_and_spent(rt: HostRuntime) {
    let input: &[u8] =
        b"new c Cell(5)\nnew c Cell(1)\npad 1\npad 1 +\nnew c Cell(\ncall c\nwait\ninspect c\nnew Cell Cell(1)\n";
    let output: &[u8] =
        b"= started\n= busy\n= busy\n= busy\n= busy\n= busy\n! spent\n= unknown c\n= not built\n";
    assert!(rt; wrote(bench_within(rt.alloc(), 5, 10, input), 0, output));
}

#[test]
fn a_full_heap_throws_and_binds_no_name(rt: HostRuntime) {
    let input: &[u8] = b"new a Cell(1)\nnew b Cell(2)\ninspect b\ninspect a\n";
    let output: &[u8] =
        b"= started\n! a <Cell 5>\n= started\n! threw OutOfMemoryError\n= unknown b\n= a <Cell 5>\n= int Cell.n = 1\n";
    assert!(rt; wrote(bench_within(rt.alloc(), 100, 1, input), 0, output));
}

/// A line that makes an object with the name of a number: `n` and its four decimal digits as letters from `a`.
fn numbered(text: &mut Vec<u8>, number: usize) -> Result<(), Fail> {
    text.extend_from_slice(b"new n".as_slice())?;
    for place in [1000, 100, 10, 1] {
        text.push(b'a' + (number / place % 10) as u8)?;
    }
    text.extend_from_slice(b" Cell(0)\n".as_slice())?;
    Ok(())
}

/// Lines that make a thousand and one objects, each with a name of its own.
fn many_names(alloc: Global) -> Result<Vec<u8>, Fail> {
    let mut input = Vec::new(alloc);
    for number in 0..1001 {
        numbered(&mut input, number)?;
    }
    Ok(input)
}

/// Whether a run ended with status 0 and wrote this last.
fn wrote_last(finish: &Done, end: &[u8]) -> bool {
    finish.status == 0 && finish.ends.sink.held().as_slice().ends_with(end)
}

#[test]
fn a_bench_has_room_for_a_thousand_names(rt: HostRuntime) -> Result<(), Fail> {
    let alloc = rt.alloc();
    let input = many_names(alloc)?;
    let found = match bench(alloc, input.as_slice()) {
        Ok(finish) => {
            let found = wrote_last(&finish, b"= started\n! najjj <Cell 1004>\n= taken nbaaa\n");
            dismiss(finish);
            found
        }
        Err(_) => false,
    };
    assert!(rt; found);
    Ok(())
}
