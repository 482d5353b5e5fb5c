ghost use Rattle.std.specs.Prelude.{◌≡◌, ◌<◌, ◌≤◌, ◌+◌, IfOk, IfErr, length};
ghost use Rattle.bj_lex.specs.Places.{place_after, start};
ghost use Rattle.bj_lex.specs.Texts.{ReadsAs, IsFirstFault, Read as ReadAs, Stopped, read, read_bytes, text_of, bad_byte, IsStopOf, IsRefusalAt, token_at, before_bad_byte, GoesOn, after_tokens, read_after};

use crate::characters::{front_of, rest_from};
use crate::element::{Element, element_of};
use crate::place::Place;
use bj_base::{Copies, Fault, FaultCode, JText, Name, NoMemory, Refusal, Seq};
use bj_text::utf16;
use bj_token::{Token, TokenKind, Tokens};
use std::alloc::Global;

/// The tokens of a text, and the place where it ends.
#[derive(Drop)]
struct Reading {
    items: Seq<Token>,
    end: Place,
}

/// Why a text has no tokens.
#[derive(Drop)]
enum Stop {
    /// Its first fault, with how many units stand before it.
    Fault(usize, Place, FaultCode),
    /// Want of memory.
    NoMemory,
}

impl From<NoMemory> for Stop {
    ghost use Rattle.bj_lex.specs.declared.reading.Stop.TheVariants as stop;

    ghost from_gives = { λ _ e. e ≡ stop.NoMemory };

    fn from(_fault: NoMemory) -> Stop {
        Stop::NoMemory
    }
}

/// The tokens of a text of Java in UTF-8 [JLS 3], at their places: lines and columns from 1, columns in UTF-16 units. Text that is
/// no token is white space or a comment. A token is the longest that stands at its place, and has its units as they are written.
///
/// The class is the one in whose file the text stands; it is empty for a console line.
///
/// # Errors
///
/// The first fault of the text:
/// - `Char` at a byte that is not UTF-8, at a character that begins no token, at a run of letters and digits that begins with a
///   digit and is no literal, and at a literal in quotes that is closed on its line but holds a backslash that begins no escape
///   sequence, or, within `'`, not exactly one unit;
/// - `Open` at a comment or a literal in quotes that is not closed;
/// - `Wide` at an integer literal past the range of its type in every place: a decimal one of more than 2147483648, or with `L`
///   9223372036854775808, another one of more than 32 bits, or with `L` 64. A decimal one of exactly that number is a token, since it
///   stands as the operand of unary minus: whether it does is for the parser to see;
/// - `Profile` at a floating-point literal, at a keyword that the profile leaves out, and at `->`, `::` and `...`.
///
/// `NoMemory` where there is no room for the tokens.
pub fn tokens(alloc: Global, class: &Name, bytes: &[u8]) -> Result<Tokens, Refusal>
    requires { length bytes.now < 4294967295 }
    ensures class { IfOk result (λ tokens. tokens.class ≡ class.now) }
    ensures ok { IfOk result (λ tokens. ReadsAs bytes.now tokens.items tokens.end) }
    ensures err { IfErr result (λ refusal. IsFirstFault class.now bytes.now refusal) }
{
    match read_bytes(alloc, bytes) {
        Ok(reading) => match class.copy(alloc) {
            Ok(class) => Ok(Tokens {
                class,
                items: reading.items,
                end: reading.end.span(),
            }),
            Err(NoMemory) => Err(Refusal::NoMemory),
        },
        Err(Stop::Fault(_, place, code)) => Err(refusal(alloc, class, place, code)),
        Err(Stop::NoMemory) => Err(Refusal::NoMemory),
    }
}

/// The refusal for a fault of the class.
fn refusal(alloc: Global, class: &Name, place: Place, code: FaultCode) -> Refusal
    ensures { IsRefusalAt class.now place code result }
{
    match class.copy(alloc) {
        Ok(class) => Refusal::Fault(Fault {
            class,
            at: place.span(),
            code,
        }),
        Err(NoMemory) => Refusal::NoMemory,
    }
}

/// The tokens of bytes.
fn read_bytes(alloc: Global, bytes: &[u8]) -> Result<Reading, Stop>
    requires { length bytes.now < 4294967295 }
    ensures ok { IfOk result (λ reading. read_bytes bytes.now ≡ ReadAs reading.items reading.end) }
    ensures err { IfErr result (λ stop. IsStopOf (read_bytes bytes.now) stop) }
{
    let units = text_of(alloc, bytes)?;
    match str::from_utf8(bytes) {
        Ok(_) => read(alloc, units.as_slice()),
        Err(fault) => {
            let front = text_of(alloc, &bytes[..fault.valid_up_to()])?;
            Err(before_bad_byte(alloc, units.as_slice(), front.as_slice()))
        }
    }
}

/// The fault of a text whose first byte that is not UTF-8 stands behind a front: the text's own first fault, if it stands before.
fn before_bad_byte(alloc: Global, units: &[u16], front: &[u16]) -> Stop
    requires units { length units.now < 4294967295 }
    requires front { length front.now < 4294967295 }
    ensures { IsStopOf (before_bad_byte front.now (read units.now)) result }
{
    let bad = Stop::Fault(front.len(), Place::start().past(front), FaultCode::Char);
    match read(alloc, units) {
        Ok(_) => bad,
        Err(Stop::NoMemory) => Stop::NoMemory,
        Err(Stop::Fault(at, place, code)) => {
            if at < front.len() {
                Stop::Fault(at, place, code)
            } else {
                bad
            }
        }
    }
}

/// The units of a text in UTF-8, with U+FFFD for each sequence that is not.
fn text_of(alloc: Global, bytes: &[u8]) -> Result<JText, NoMemory>
    ensures value { IfOk result (λ units. units ≡ text_of bytes.now) }
    ensures short { IfOk result (λ units. length units ≤ length bytes.now) }
{
    let text = String::from_utf8_lossy(alloc, bytes)?;
    utf16(alloc, text.as_str())
}

/// The tokens of units.
fn read(alloc: Global, units: &[u16]) -> Result<Reading, Stop>
    requires { length units.now < 4294967295 }
    ensures ok { IfOk result (λ reading. read units.now ≡ ReadAs reading.items reading.end) }
    ensures err { IfErr result (λ stop. IsStopOf (read units.now) stop) }
{
    let mut items = Seq::new(alloc);
    let mut at = 0;
    let mut place = Place::start();
    while at < units.len() {
        let rest = rest_from(units, at);
        let length = read_element(alloc, &mut items, at, place, rest)?;
        place = place.past(front_of(rest, length));
        at += length;
    }
    Ok(Reading { items, end: place })
}

/// Reads the element at the front, and gives how many units it has.
fn read_element(
    alloc: Global,
    items: &mut Seq<Token>,
    at: usize,
    place: Place,
    rest: &[u16],
) -> Result<usize, Stop>
    requires some { 0 < length rest.now }
    requires room { length rest.now < 4294967295 }
    ensures ok { IfOk result (λ n. GoesOn items.old items.new at place rest.now n) }
    ensures err { IfErr result
        (λ stop. IsStopOf (after_tokens items.old (read_after 0 at place rest.now)) stop) }
{
    match element_of(alloc, rest)? {
        Element::Blank(length) => Ok(length),
        Element::Token(kind, length) => {
            items.push(token_at(alloc, kind, place, front_of(rest, length))?)?;
            Ok(length)
        }
        Element::Fault(code) => Err(Stop::Fault(at, place, code)),
    }
}

/// The token of these units at a place.
fn token_at(alloc: Global, kind: TokenKind, place: Place, units: &[u16]) -> Result<Token, NoMemory>
    ensures { IfOk result (λ token. token ≡ token_at kind place units.now) }
{
    Ok(Token {
        kind,
        at: place.span(),
        text: Seq::from_slice(alloc, units)?,
    })
}
