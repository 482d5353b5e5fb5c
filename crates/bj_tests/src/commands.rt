use bj_command::{
    Command, LineFault, Lines, count_lines, drop_cr, is_quit, line_end, read_line, read_pad_line,
};
use std::alloc::Global;
use std::test::*;

/// What a line is read as.
#[derive(Clone, Copy)]
enum Wanted {
    /// A line without a word.
    Blank,
    /// `quit`
    Quit,
    /// `wait`
    Wait,
    /// A form that is not built.
    Unbuilt,
    /// `pad` with this text.
    Pad(&'static [u8]),
    /// `new` with this name and this text.
    New(&'static [u8], &'static [u8]),
    /// `call` with this text.
    Call(&'static [u8]),
    /// `inspect` with this name.
    Inspect(&'static [u8]),
    /// A bad line, with the place that it is told at.
    Bad(usize),
}

/// Whether a command is this one.
fn is_command(command: &Command, wanted: Wanted) -> bool {
    match command {
        Command::Blank => matches!(wanted, Wanted::Blank),
        Command::Quit => matches!(wanted, Wanted::Quit),
        Command::Wait => matches!(wanted, Wanted::Wait),
        Command::Unbuilt => matches!(wanted, Wanted::Unbuilt),
        Command::Pad { text } => matches!(wanted, Wanted::Pad(of) if text.as_slice() == of),
        Command::Call { text } => matches!(wanted, Wanted::Call(of) if text.as_slice() == of),
        Command::Inspect { name } => {
            matches!(wanted, Wanted::Inspect(of) if name.as_slice() == of)
        }
        Command::New { name, text } => {
            matches!(wanted, Wanted::New(of, with) if name.as_slice() == of && text.as_slice() == with)
        }
    }
}

/// Whether a line was read as this.
fn is_read_so(read: &Result<Command, LineFault>, wanted: Wanted) -> bool {
    match read {
        Ok(command) => is_command(command, wanted),
        Err(LineFault::BadLine { at }) => matches!(wanted, Wanted::Bad(place) if *at == place),
        Err(LineFault::NoMemory) => false,
    }
}

/// Lets go what a line was read as. Its drop stands here alone.
fn dismiss(_read: Result<Command, LineFault>) {}

/// Lines of a bench with what each is read as.
const LINES: [(&[u8], Wanted); 30] = [
    (b"", Wanted::Blank),
    (b"   ", Wanted::Blank),
    (b"quit", Wanted::Quit),
    (b"  quit ", Wanted::Quit),
    (b" pad  1 + 2 ", Wanted::Pad(b"1 + 2 ")),
    (b"new x Cell(5)", Wanted::New(b"x", b"Cell(5)")),
    (
        b"  new  cell  Cell( 5 ) ",
        Wanted::New(b"cell", b"Cell( 5 ) "),
    ),
    (b"call  c.get() ", Wanted::Call(b"c.get() ")),
    (b"inspect c", Wanted::Inspect(b"c")),
    (b" inspect  cell ", Wanted::Inspect(b"cell")),
    (b"wait", Wanted::Wait),
    (b"  wait ", Wanted::Wait),
    (b"wait 5", Wanted::Unbuilt),
    (b"wait jobs", Wanted::Unbuilt),
    (b"flub", Wanted::Bad(1)),
    (b"  flub", Wanted::Bad(3)),
    (b"pad", Wanted::Bad(4)),
    (b"pad  ", Wanted::Bad(6)),
    (b"padx 1", Wanted::Bad(1)),
    (b"quit now", Wanted::Bad(6)),
    (b"\x61\xff", Wanted::Bad(2)),
    (b"pad \xe2\x82", Wanted::Bad(5)),
    (b"Quit", Wanted::Bad(1)),
    (b"new", Wanted::Bad(4)),
    (b"new x", Wanted::Bad(6)),
    (b" new x ", Wanted::Bad(8)),
    (b"call", Wanted::Bad(5)),
    (b"inspect", Wanted::Bad(8)),
    (b"inspect c d", Wanted::Bad(11)),
    (b"  waits", Wanted::Bad(3)),
];

/// Who reads lines.
#[derive(Clone, Copy)]
enum Console {
    /// A bench.
    Bench,
    /// A codepad, which reads its own words.
    Pad,
}

/// The first of these lines that a console reads otherwise, counted from 0.
fn first_misread(alloc: Global, console: Console, rows: &[(&[u8], Wanted)]) -> Option<usize> {
    for (row, (line, wanted)) in rows.iter().enumerate() {
        let read = match console {
            Console::Bench => read_line(alloc, line),
            Console::Pad => read_pad_line(alloc, line),
        };
        let is_so = is_read_so(&read, *wanted);
        dismiss(read);
        if !is_so {
            return Some(row);
        }
    }
    None
}

#[test]
fn lines_of_a_bench_are_read_or_bad_at_a_place(rt: HostRuntime) {
    assert_eq!(&rt; first_misread(rt.alloc(), Console::Bench, &LINES), None);
}

/// Lines of a codepad with what each is read as.
const PAD_LINES: [(&[u8], Wanted); 11] = [
    (b"", Wanted::Blank),
    (b"  ", Wanted::Blank),
    (b"quit", Wanted::Quit),
    (b"pad 1 + 2", Wanted::Pad(b"1 + 2")),
    (b"inspect", Wanted::Bad(1)),
    (b"  inspect", Wanted::Bad(3)),
    (b"new x Cell(5)", Wanted::Bad(1)),
    (b"call c.get()", Wanted::Bad(1)),
    (b"wait", Wanted::Bad(1)),
    (b"pad", Wanted::Bad(4)),
    (b"quit now", Wanted::Bad(6)),
];

#[test]
fn lines_of_a_codepad_are_read_or_bad_at_a_place(rt: HostRuntime) {
    assert_eq!(&rt; first_misread(rt.alloc(), Console::Pad, &PAD_LINES), None);
}

/// Whether a line of so many `x` is bad at this place.
fn is_long_line_bad_at(alloc: Global, many: usize, at: usize) -> bool {
    let Ok(line) = vec![in alloc; b'x'; many] else {
        return false;
    };
    let read = read_line(alloc, line.as_slice());
    let is_so = is_read_so(&read, Wanted::Bad(at));
    dismiss(read);
    is_so
}

#[test]
fn a_line_past_65536_bytes_is_bad_behind_them(rt: HostRuntime) {
    assert!(&rt; is_long_line_bad_at(rt.alloc(), 65_537, 65_537));
    assert!(&rt; is_long_line_bad_at(rt.alloc(), 65_536, 1));
}

/// Lines with whether each is `quit`.
const QUITS: [(&[u8], bool); 4] = [
    (b" quit", true),
    (b"quit x", false),
    (b"", false),
    (b"pad quit", false),
];

#[test]
fn quit_stands_alone(rt: HostRuntime) {
    for (line, wanted) in QUITS.iter() {
        assert!(&rt; is_quit(line) == *wanted);
    }
}

/// Lines with what is left of each without a CR at its end.
const WITHOUT_CR: [(&[u8], &[u8]); 3] = [(b"ab\r", b"ab"), (b"ab\r\r", b"ab\r"), (b"", b"")];

#[test]
fn a_cr_at_the_end_of_a_line_is_dropped(rt: HostRuntime) {
    for (line, wanted) in WITHOUT_CR.iter() {
        assert!(&rt; drop_cr(line) == *wanted);
    }
}

#[test]
fn lines_are_cut_at_lf(rt: HostRuntime) {
    assert!(&rt; line_end(b"ab\ncd", 0) == Some(2));
    assert!(&rt; line_end(b"ab\ncd", 2) == Some(2));
    assert!(&rt; line_end(b"abcd", 1).is_none());
}

#[test]
fn lines_are_counted_over_pieces(rt: HostRuntime) {
    let none = Lines {
        begun: 0,
        first: true,
    };
    let some = count_lines(none, b"ab\nc");
    let more = count_lines(some, b"d\n\n");
    let all = count_lines(more, b"e");
    assert!(&rt; some.begun == 2 && more.begun == 3 && all.begun == 4);
}
