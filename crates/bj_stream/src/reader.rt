ghost use Rattle.std.specs.Prelude.{◌≡◌, ◌≤◌, ◌<◌, [], ◌++◌, length, true, false};
ghost use Rattle.bj_command.specs.Items.{items, last_line};
ghost use Rattle.bj_stream.specs.Reading.{fresh_reader, HasPolled, HasTaken, HasNoLf, is_too_long};

use bj_base::{Bytes, Seq};
use bj_command::{Lines, count_lines, drop_cr, line_end};
use bj_io::{Poll, Source};
use std::alloc::Global;
use std::marker::Model;

/// The most bytes that are read.
pub const MOST_BYTES: usize = 16_777_216;

/// The most lines that are read.
pub const MOST_LINES: u64 = 100_000;

/// How many bytes a poll asks for.
const PIECE: usize = 4096;

/// What a poll brought.
#[derive(Clone, Copy, Debug, PartialEq, Eq)]
pub enum Polled {
    /// Some bytes.
    Got,
    /// Nothing had arrived.
    NotYet,
    /// The end of the bytes.
    End,
    /// A fault.
    Failed,
    /// Want of memory, before the source was asked.
    NoMemory,
}

/// A line that was taken.
#[derive(Drop)]
pub enum Taken {
    /// The next line.
    Line(Bytes),
    /// None is whole, and the bytes have not ended; or all are taken.
    Nothing,
    /// Want of memory; no line was taken.
    NoMemory,
}

/// The bytes that were got, and how far lines were taken from them.
#[derive(Drop)]
pub struct Reader<S: Source> {
    source: S,
    got: Vec<u8>,
    /// Lines were taken up to here.
    cut: usize,
    /// There is no LF from `cut` up to here, so that no byte is looked at twice for one.
    scanned: usize,
    lines: Lines,
    ended: bool,
    alloc: Global,
}

impl<S: Source> Model for Reader<S> {
    ghost use Rattle.std.specs.Prelude.{◌≡◌, ◌≤◌, ◌<◌, length, drop, ℕ, slice_index};
    ghost use Rattle.bj_stream.specs.Reading.{Reader as Shown, IsReader};

    ghost Value = { Shown };

    ghost view = { λ r. record { left = S.left r.source; faults = S.faults r.source; waits = S.waits r.source; polls = S.polls r.source; ended = S.ended r.source; got = r.got.items; rest = drop r.cut r.got.items } };

    ghost invariant = { λ r. IsReader r.got.items r.cut r.scanned r.lines (S.ended r.source) r.ended };
}

impl<S: Source> Reader<S> {
    /// A reader of what the source has left.
    pub fn new(alloc: Global, source: S) -> Reader<S>
        requires { S.ended source ≡ false }
        ensures { result ≡ fresh_reader (S.left source) (S.faults source) (S.waits source) (S.polls source) }
    {
        Reader {
            source,
            got: Vec::new(alloc),
            cut: 0,
            scanned: 0,
            lines: Lines {
                begun: 0,
                first: true,
            },
            ended: false,
            alloc,
        }
    }

    /// Whether the bytes have ended.
    pub fn has_ended(&self) -> bool
        ensures { result ≡ self.now.ended }
    {
        self.ended
    }

    /// Whether all that was got is taken.
    pub fn is_done(&self) -> bool
        ensures done { result ≡ true → self.now.rest ≡ [] }
        ensures more { result ≡ false → 0 < length self.now.rest }
    {
        self.cut == self.got.len()
    }

    /// Whether the bytes have ended and all are taken.
    pub fn is_over(&self) -> bool
        ensures over { result ≡ true → (self.now.ended ≡ true) × (self.now.rest ≡ []) }
        ensures more { result ≡ false → self.now.ended ≡ true → 0 < length self.now.rest }
    {
        self.ended && self.cut == self.got.len()
    }

    /// Whether more was got than is read.
    pub fn is_too_long(&self) -> bool
        ensures { result ≡ is_too_long self.now.got }
    {
        MOST_BYTES < self.got.len() || MOST_LINES < self.lines.begun
    }

    /// Polls the source once.
    pub fn poll(&mut self) -> Polled
        ensures polled { HasPolled result self.old self.new }
    {
        if self.got.reserve(PIECE).is_err() {
            return Polled::NoMemory;
        }
        let mut buffer = [0; PIECE];
        match self.source.poll(&mut buffer) {
            Poll::Got(count) => {
                let piece = &buffer[..count];
                match self.got.extend_from_slice(piece) {
                    Ok(()) => {
                        self.lines = count_lines(self.lines, piece);
                        Polled::Got
                    }
                    Err(_) => unreachable!(),
                }
            }
            Poll::NotYet => Polled::NotYet,
            Poll::End => {
                self.ended = true;
                Polled::End
            }
            Poll::Failed => Polled::Failed,
        }
    }

    /// Takes the next line, if a whole one was got, or the bytes have ended.
    pub fn take_line(&mut self) -> Taken
        ensures taken { HasTaken result self.old self.new }
    {
        let rest = &self.got.as_slice()[self.cut..];
        match line_end(rest, self.scanned - self.cut) {
            Some(end) => match Seq::from_slice(self.alloc, drop_cr(&rest[..end])) {
                Ok(bytes) => {
                    self.cut += end + 1;
                    self.scanned = self.cut;
                    Taken::Line(bytes)
                }
                Err(_) => Taken::NoMemory,
            },
            None => self.take_last(),
        }
    }

    /// Takes the line that has no LF, if the bytes have ended.
    fn take_last(&mut self) -> Taken
        requires none { HasNoLf self.old.rest }
        requires last { items self.old.rest true ≡ last_line self.old.rest true }
        ensures taken { HasTaken result self.old self.new }
    {
        let end = self.got.len();
        self.scanned = end;
        if !self.ended || self.cut == end {
            return Taken::Nothing;
        }
        match Seq::from_slice(self.alloc, &self.got.as_slice()[self.cut..]) {
            Ok(bytes) => {
                self.cut = end;
                Taken::Line(bytes)
            }
            Err(_) => Taken::NoMemory,
        }
    }

    /// The source, with what it has left.
    pub fn into_source(self) -> S
        ensures left { S.left result ≡ self.left }
        ensures faults { S.faults result ≡ self.faults }
        ensures waits { S.waits result ≡ self.waits }
        ensures polls { S.polls result ≡ self.polls }
        ensures ended { S.ended result ≡ self.ended }
    {
        let Reader {
            source,
            got: _,
            cut: _,
            scanned: _,
            lines: _,
            ended: _,
            alloc: _,
        } = self;
        source
    }
}
