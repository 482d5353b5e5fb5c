ghost use Rattle.std.specs.Prelude.{◌≡◌, ◌+◌, ◌≤◌, ◌<◌, ℕ, List, Bool, Option, length};
ghost use Rattle.bj_io.specs.Told.{before, behind, IsNothing, Rose};
ghost use Rattle.bj_io.specs.Answers.{got, taken, ended_after, FitsGot, FitsTook};

/// What a source answers to a poll.
#[derive(Clone, Copy, Debug, PartialEq, Eq)]
pub enum Poll {
    /// So many bytes, at least one, are at the front of the buffer.
    Got(usize),
    /// Nothing had arrived.
    NotYet,
    /// Nothing will come any more.
    End,
    /// A fault.
    Failed,
}

/// What a sink answers to a piece.
#[derive(Clone, Copy, Debug, PartialEq, Eq)]
pub enum Put {
    /// So many bytes of the piece were taken, at least one of a piece that is not empty.
    Took(usize),
    /// A fault; nothing was taken.
    Failed,
    /// Want of memory; nothing was taken.
    NoMemory,
}

/// Where bytes come from.
pub trait Source: Drop {
    /// The bytes that are still to come, where the source tells them.
    ghost left: { Self → Option (List ℕ) };

    /// How often it failed.
    ghost faults: { Self → ℕ };

    /// How often nothing had arrived.
    ghost waits: { Self → ℕ };

    /// How often it was polled.
    ghost polls: { Self → ℕ };

    /// Whether a poll has answered `End`.
    ghost ended: { Self → Bool };

    /// Asks for the next bytes, as many as the buffer holds at most.
    fn poll(&mut self, into: &mut [u8]) -> Poll
        requires { 0 < length into.old }
        ensures left { left self.old ≡ before (got result into.new) (left self.new) }
        ensures count { FitsGot result into.new }
        ensures end { result ≡ Poll.End → IsNothing (left self.new) }
        ensures ended { ended self.new ≡ ended_after result (ended self.old) }
        ensures faults { faults self.old ≤ faults self.new }
        ensures failed { result ≡ Poll.Failed → Rose (faults self.old) (faults self.new) }
        ensures waits { waits self.old ≤ waits self.new }
        ensures not_yet { result ≡ Poll.NotYet → Rose (waits self.old) (waits self.new) }
        ensures polled { Rose (polls self.old) (polls self.new) }
        ensures once { polls self.new ≤ polls self.old + 1 };
}

/// Where bytes go.
pub trait Sink: Drop {
    /// The bytes that it took, where the sink tells them.
    ghost held: { Self → Option (List ℕ) };

    /// How often it failed.
    ghost faults: { Self → ℕ };

    /// Puts bytes behind those that it took: the front of the piece, and not always all of it.
    fn put(&mut self, bytes: &[u8]) -> Put
        ensures held { held self.new ≡ behind (held self.old) (taken result bytes.now) }
        ensures count { FitsTook result bytes.now }
        ensures faults { faults self.old ≤ faults self.new }
        ensures failed { result ≡ Put.Failed → Rose (faults self.old) (faults self.new) };
}

/// A clock of milliseconds, whose answers never fall.
pub trait Clock: Drop {
    /// The number that it answered last, 0 before the first.
    ghost last: { Self → ℕ };

    /// The milliseconds that it tells now.
    fn now(&mut self) -> u64
        ensures answer { result ≡ last self.new }
        ensures rises { last self.old ≤ last self.new };
}
