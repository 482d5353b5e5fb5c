use bj_base::{FaultCode, Name, NoMemory, Refusal, Span};
use bj_grammar::Terminal;
use bj_lex::tokens;
use bj_line::{MOST_NODES, back, fault, is_least, is_left_out, spot, symbols_of};
use bj_token::Tokens;
use std::alloc::Global;

/// What stands at places of the tokens of `try (a) -2147483648`.
#[derive(Clone, Copy, PartialEq, Eq)]
struct Places {
    behind: bool,
    left_out: (bool, bool),
    least: (bool, bool),
    second: Span,
    end: Span,
}

/// The tokens of a text, in the file of a class.
fn tokens_of(alloc: Global, class: &[u8], text: &[u8]) -> Result<Tokens, NoMemory> {
    if text.len() >= 100 {
        return Err(NoMemory);
    }
    let class = Name::from_slice(alloc, class)?;
    match tokens(alloc, &class, text) {
        Ok(read) => Ok(read),
        Err(_) => Err(NoMemory),
    }
}

fn told(alloc: Global) -> Result<Places, NoMemory> {
    let read = tokens_of(alloc, b"", b"try (a) -2147483648")?;
    let symbols = symbols_of(alloc, read.items.as_slice())?;
    let all = symbols.as_slice();
    Ok(Places {
        behind: back(all, 2, 2) == Terminal::Try,
        left_out: (is_left_out(all, 1), is_left_out(all, 2)),
        least: (is_least(all, 4), is_least(all, 5)),
        second: spot(&read, all, 1),
        end: spot(&read, all, 6),
    })
}

/// Whether a refusal is this fault in the file of `A`.
fn is_fault(refusal: &Refusal, at: Span, code: FaultCode) -> bool {
    match refusal {
        Refusal::Fault(fault) => {
            fault.class.as_slice() == b"A".as_slice() && fault.at == at && fault.code == code
        }
        Refusal::NoMemory => false,
    }
}

/// Lets a fault go. Its drop stands here alone, so that no caller's proof goes through it.
fn let_go(_refusal: Refusal) {}

/// Whether the fault that is made is the one asked for.
fn made(alloc: Global) -> Result<bool, NoMemory> {
    let read = tokens_of(alloc, b"A", b"class")?;
    let at = Span { line: 2, column: 7 };
    let refusal = fault(alloc, &read, at, FaultCode::Deep);
    let found = is_fault(&refusal, at, FaultCode::Deep);
    let_go(refusal);
    Ok(found)
}

#[test]
fn what_a_fault_is_told_by_stands_at_its_place(rt: HostRuntime) {
    let wanted = Places {
        behind: true,
        left_out: (true, false),
        least: (false, true),
        second: Span { line: 1, column: 5 },
        end: Span {
            line: 1,
            column: 20,
        },
    };
    assert!(&rt; told(rt.alloc()) == Ok(wanted));
}

#[test]
fn a_fault_keeps_its_file_its_place_and_its_code(rt: HostRuntime) {
    assert!(&rt; made(rt.alloc()) == Ok(true));
    assert_eq!(&rt; MOST_NODES, 201);
}
