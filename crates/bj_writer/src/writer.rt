ghost use Rattle.std.specs.Prelude.{◌≡◌, [], ◌∷◌, ◌++◌, None, OnOk, slice_index, length, ◌-◌};
ghost use Rattle.bj_lex.specs.Numerals.{is_digit_in};
ghost use Rattle.bj_lex.specs.Signs.{is_one_of, is_double};
ghost use Rattle.bj_writer.specs.Pieces.{Mark, Space, Line, Wrote, gap, joins, signs_join, is_run, is_number, is_sign, spaces};

use bj_base::{JText, NoMemory, Seq};
use bj_lex::TokenKind;
use std::alloc::Global;

/// The space that keeps two tokens apart.
const SPACE: u16 = 32;

/// The line end that is written [JLS 3.4].
const LINE_FEED: u16 = 10;

/// The token at the end of a text.
#[derive(Clone, Copy)]
pub struct Last {
    /// What kind it is.
    pub kind: TokenKind,
    /// Its last unit.
    pub unit: u16,
}

/// A text that is written token by token, with a space wherever two tokens would join.
#[derive(Drop)]
pub struct Writer {
    text: JText,
    last: Option<Last>,
}

impl Writer {
    /// An empty text. It takes no memory.
    pub fn new(alloc: Global) -> Writer
        ensures text { result.text ≡ [] }
        ensures last { result.last ≡ None }
    {
        Writer {
            text: Seq::new(alloc),
            last: None,
        }
    }

    /// Writes a token of the kind, with these units [JLS 3.5].
    ///
    /// # Errors
    ///
    /// `NoMemory` where there is no room for it; the text is then no longer to be used.
    pub fn token(&mut self, kind: TokenKind, units: &[u16]) -> Result<(), NoMemory>
        ensures { OnOk result (Wrote self.old self.new (Mark kind units.now ∷ [])) }
    {
        self.part(kind, first_of(units))?;
        self.text.extend(units)?;
        self.last = Some(Last {
            kind,
            unit: last_of(units),
        });
        Ok(())
    }

    /// Writes a keyword or a sign, which has these bytes as its units [JLS 3.9, 3.11, 3.12].
    ///
    /// # Errors
    ///
    /// As `token`.
    pub fn mark(&mut self, kind: TokenKind, text: &[u8]) -> Result<(), NoMemory>
        ensures { OnOk result (Wrote self.old self.new (Mark kind text.now ∷ [])) }
    {
        self.part(kind, first_byte(text))?;
        self.bytes(text)?;
        self.last = Some(Last {
            kind,
            unit: last_byte(text),
        });
        Ok(())
    }

    /// Writes a space.
    ///
    /// # Errors
    ///
    /// As `token`.
    pub fn space(&mut self) -> Result<(), NoMemory>
        ensures { OnOk result (Wrote self.old self.new (Space ∷ [])) }
    {
        self.text.push(SPACE)?;
        self.last = None;
        Ok(())
    }

    /// Writes a line end, and so many spaces.
    ///
    /// # Errors
    ///
    /// As `token`.
    pub fn line(&mut self, columns: usize) -> Result<(), NoMemory>
        ensures { OnOk result (Wrote self.old self.new (Line columns ∷ [])) }
    {
        self.text.push(LINE_FEED)?;
        for _ in 0..columns {
            self.text.push(SPACE)?;
        }
        self.last = None;
        Ok(())
    }

    /// The text.
    pub fn into_text(self) -> JText
        ensures { result ≡ self.text }
    {
        self.text
    }

    /// Writes a space where a token that begins with the unit would join the last one.
    fn part(&mut self, kind: TokenKind, first: u16) -> Result<(), NoMemory>
        ensures text { OnOk result (self.new.text ≡ self.old.text ++ gap self.old.last kind (first ∷ [])) }
        ensures last { OnOk result (self.new.last ≡ self.old.last) }
    {
        if let Some(last) = self.last {
            if joins(last, kind, first) {
                self.text.push(SPACE)?;
            }
        }
        Ok(())
    }

    /// Writes the bytes as units.
    fn bytes(&mut self, text: &[u8]) -> Result<(), NoMemory>
        ensures text { OnOk result (self.new.text ≡ self.old.text ++ text.now) }
        ensures last { OnOk result (self.new.last ≡ self.old.last) }
    {
        for byte in text {
            self.text.push(u16::from(*byte))?;
        }
        Ok(())
    }
}

/// Whether a token that begins with the unit would not be the next one directly behind the last.
fn joins(last: Last, kind: TokenKind, unit: u16) -> bool
    ensures { result ≡ joins last kind unit }
{
    (is_run(last.kind) && is_run(kind))
        || ((is_number(last.kind) && is_one_of(b".+-", unit))
            || (is_sign(last.kind) && signs_join(last.unit, unit)))
}

/// Whether a token of the kind is a run of letters and digits [JLS 3.8, 3.9, 3.10.1].
fn is_run(kind: TokenKind) -> bool
    ensures { result ≡ is_run kind }
{
    match kind {
        TokenKind::Word | TokenKind::Keyword | TokenKind::Number | TokenKind::LongNumber => true,
        TokenKind::CharText | TokenKind::StringText | TokenKind::Sign => false,
    }
}

/// Whether a token of the kind is an integer literal [JLS 3.10.1].
fn is_number(kind: TokenKind) -> bool
    ensures { result ≡ is_number kind }
{
    match kind {
        TokenKind::Number | TokenKind::LongNumber => true,
        TokenKind::Word
        | TokenKind::Keyword
        | TokenKind::CharText
        | TokenKind::StringText
        | TokenKind::Sign => false,
    }
}

/// Whether a token of the kind is a separator or an operator [JLS 3.11, 3.12].
fn is_sign(kind: TokenKind) -> bool
    ensures { result ≡ is_sign kind }
{
    match kind {
        TokenKind::Sign => true,
        TokenKind::Word
        | TokenKind::Keyword
        | TokenKind::Number
        | TokenKind::LongNumber
        | TokenKind::CharText
        | TokenKind::StringText => false,
    }
}

/// Whether the units, side by side, may stand in one sign [JLS 3.11, 3.12], begin a comment [JLS 3.7] or a fraction [JLS 3.10.2].
fn signs_join(last: u16, unit: u16) -> bool
    ensures { result ≡ signs_join last unit }
{
    is_double(last, unit)
        || ((last == 46 && (unit == 46 || is_digit(unit)))
            || (last == 47 && (unit == 47 || unit == 42)))
}

/// Whether the units are a sign of two, or stand so in a longer one [JLS 3.12].
fn is_double(first: u16, second: u16) -> bool
    ensures { result ≡ is_double first second }
{
    (second == 61 && is_one_of(b"=><!+-*/&|^%", first))
        || (first == second && is_one_of(b"&|+-<>:", first))
        || (first == 45 && second == 62)
}

/// Whether the unit is a decimal digit.
fn is_digit(unit: u16) -> bool
    ensures { result ≡ is_digit_in 10 unit }
{
    48 <= unit && unit < 58
}

/// Whether the unit is one of these.
fn is_one_of(units: &[u8], unit: u16) -> bool
    ensures { result ≡ is_one_of units.now unit }
{
    for one in units {
        if unit == u16::from(*one) {
            return true;
        }
    }
    false
}

/// The first unit, and 0 where there is none.
fn first_of(units: &[u16]) -> u16
    ensures { result ≡ slice_index units.now 0 }
{
    match units.first() {
        Some(unit) => *unit,
        None => 0,
    }
}

/// The last unit, and 0 where there is none.
fn last_of(units: &[u16]) -> u16
    ensures { result ≡ slice_index units.now (length units.now - 1) }
{
    match units.last() {
        Some(unit) => *unit,
        None => 0,
    }
}

/// The first byte as a unit, and 0 where there is none.
fn first_byte(text: &[u8]) -> u16
    ensures { result ≡ slice_index text.now 0 }
{
    match text.first() {
        Some(byte) => u16::from(*byte),
        None => 0,
    }
}

/// The last byte as a unit, and 0 where there is none.
fn last_byte(text: &[u8]) -> u16
    ensures { result ≡ slice_index text.now (length text.now - 1) }
{
    match text.last() {
        Some(byte) => u16::from(*byte),
        None => 0,
    }
}
