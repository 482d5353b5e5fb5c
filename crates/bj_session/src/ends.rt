ghost use Rattle.std.specs.Prelude.{◌≡◌};
ghost use Rattle.bj_session.specs.Endings.{status_of};

use bj_io::{Clock, Sink, Source};
use bj_machine::Log;

/// The outside of a session.
#[derive(Drop)]
pub struct Ends<S: Source, K: Sink, C: Clock> {
    /// Where its input comes from.
    pub source: S,
    /// Where its output goes.
    pub sink: K,
    /// Its clock.
    pub clock: C,
}

/// What a run leaves.
#[derive(Drop)]
pub struct Finish<S: Source, K: Sink, C: Clock> {
    /// The status of the program.
    pub status: u8,
    /// The outside, as the run left it.
    pub ends: Ends<S, K, C>,
    /// All that happened.
    pub log: Log,
}

/// How a session ends.
#[derive(Clone, Copy, Debug, PartialEq, Eq)]
pub enum Ending {
    /// By `quit`, or at the end of its input, with all done.
    Complete,
    /// At a fault of its source.
    SourceFault,
    /// At a fault of its sink.
    SinkFault,
    /// For want of memory.
    NoMemory,
    /// At an input of too many bytes or lines.
    TooLong,
    /// At a poll for which nothing had arrived.
    NotYet,
}

impl Ending {
    /// The status of the program.
    pub fn status(self) -> u8
        ensures { result ≡ status_of self }
    {
        match self {
            Ending::Complete => 0,
            Ending::SourceFault => 3,
            Ending::SinkFault => 4,
            Ending::NoMemory => 5,
            Ending::TooLong => 7,
            Ending::NotYet => 8,
        }
    }
}

/// Whether a session goes on.
#[derive(Clone, Copy, Debug, PartialEq, Eq)]
pub enum Turn {
    /// It did something.
    Moved,
    /// It is over.
    Over,
}
