ghost use Rattle.std.specs.Prelude.{◌≡◌, ◌<◌, ◌≤◌, ◌+◌, IfSome, length};
ghost use Rattle.bj_lex.specs.Comments.{line_len, block_len, line_element, block_element, is_comment_end};
ghost use Rattle.bj_lex.specs.Elements.{IsCounted};

use crate::characters::{is_line_end, unit_at};
use crate::element::Element;
use bj_base::FaultCode;

const STAR: u16 = 42;

const SLASH: u16 = 47;

/// A comment to the end of its line, behind its `//` [JLS 3.7].
pub fn line_element(rest: &[u16]) -> Element
    requires { length rest.now + 2 < 18446744073709551616 }
    ensures value { result ≡ line_element rest.now }
    ensures within { IsCounted (length rest.now + 2) result }
{
    Element::Blank(line_len(rest) + 2)
}

/// A comment to the first `*/`, behind its `/*`; Open where none follows.
pub fn block_element(rest: &[u16]) -> Element
    requires { length rest.now + 2 < 18446744073709551616 }
    ensures value { result ≡ block_element rest.now }
    ensures within { IsCounted (length rest.now + 2) result }
{
    match block_len(rest) {
        Some(length) => Element::Blank(length + 2),
        None => Element::Fault(FaultCode::Open),
    }
}

/// How many units stand before the first line end, or the end.
fn line_len(rest: &[u16]) -> usize
    ensures value { result ≡ line_len rest.now }
    ensures within { result ≤ length rest.now }
{
    for at in 0..rest.len() {
        if is_line_end(rest[at]) {
            return at;
        }
    }
    rest.len()
}

/// How many units there are through the first `*/`.
fn block_len(rest: &[u16]) -> Option<usize>
    ensures value { result ≡ block_len rest.now }
    ensures within { IfSome result (λ n. n ≤ length rest.now) }
{
    for at in 0..rest.len() {
        if is_comment_end(rest[at], unit_at(rest, at + 1)) {
            return Some(at + 2);
        }
    }
    None
}

fn is_comment_end(unit: u16, next: u16) -> bool
    ensures { result ≡ is_comment_end unit next }
{
    unit == STAR && next == SLASH
}
