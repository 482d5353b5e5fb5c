ghost use Rattle.std.specs.Prelude.{◌≡◌, ◌≤◌, length, drop, Some, Bool};

use crate::{Clock, Poll, Put, Sink, Source};
use bj_base::{Bytes, Numbers};

/// A source over memory, which tells all.
#[derive(Drop)]
pub struct MemSource {
    bytes: Bytes,
    at: usize,
    fails: Numbers,
    not_yet: Numbers,
    calls: u64,
    faults: u64,
    waits: u64,
    ended: bool,
    ghost within: { at ≤ length bytes },
}

impl MemSource {
    /// A source of these bytes. `fails` holds the numbers, from 1, of the polls that answer `Failed`, and `not_yet` those that
    /// answer `NotYet`; a poll that stands in both fails.
    pub fn new(bytes: Bytes, fails: Numbers, not_yet: Numbers) -> MemSource
        ensures left { result.bytes ≡ bytes }
        ensures start { result.at ≡ 0 }
        ensures ended { result.ended ≡ Bool.false }
    {
        MemSource {
            bytes,
            at: 0,
            fails,
            not_yet,
            calls: 0,
            faults: 0,
            waits: 0,
            ended: false,
        }
    }
}

impl Source for MemSource {
    ghost left = { λ s. Some (drop s.at s.bytes) };

    ghost faults = { λ s. s.faults };

    ghost waits = { λ s. s.waits };

    ghost polls = { λ s. s.calls };

    ghost ended = { λ s. s.ended };

    fn poll(&mut self, into: &mut [u8]) -> Poll {
        self.calls = self.calls.saturating_add(1);
        if self.fails.as_slice().contains(&self.calls) {
            self.faults = self.faults.saturating_add(1);
            return Poll::Failed;
        }
        if self.not_yet.as_slice().contains(&self.calls) {
            self.waits = self.waits.saturating_add(1);
            return Poll::NotYet;
        }
        let rest = &self.bytes.as_slice()[self.at..];
        if rest.is_empty() {
            self.ended = true;
            return Poll::End;
        }
        let count = rest.len().min(into.len());
        into[..count].copy_from_slice(&rest[..count]);
        self.at += count;
        Poll::Got(count)
    }
}

/// A sink over memory, which tells all.
#[derive(Drop)]
pub struct MemSink {
    held: Bytes,
    fails: Numbers,
    calls: u64,
    faults: u64,
}

impl MemSink {
    /// A sink that holds these bytes. `fails` holds the numbers, from 1, of the puts that answer `Failed`.
    pub fn new(held: Bytes, fails: Numbers) -> MemSink
        ensures { result.held ≡ held }
    {
        MemSink {
            held,
            fails,
            calls: 0,
            faults: 0,
        }
    }

    /// The bytes that it holds.
    pub fn held(&self) -> &Bytes
        ensures { result.now ≡ self.now.held }
    {
        &self.held
    }
}

impl Sink for MemSink {
    ghost held = { λ s. Some s.held };

    ghost faults = { λ s. s.faults };

    fn put(&mut self, bytes: &[u8]) -> Put {
        self.calls = self.calls.saturating_add(1);
        if self.fails.as_slice().contains(&self.calls) {
            self.faults = self.faults.saturating_add(1);
            return Put::Failed;
        }
        match self.held.extend(bytes) {
            Ok(()) => Put::Took(bytes.len()),
            Err(_) => Put::NoMemory,
        }
    }
}

/// A clock over memory.
#[derive(Drop)]
pub struct MemClock {
    moments: Numbers,
    at: usize,
    last: u64,
}

impl MemClock {
    /// A clock that answers these moments in turn, or the one before where that is greater, and then the last one.
    pub fn new(moments: Numbers) -> MemClock
        ensures { result.moments ≡ moments }
    {
        MemClock {
            moments,
            at: 0,
            last: 0,
        }
    }
}

impl Clock for MemClock {
    ghost last = { λ c. c.last };

    fn now(&mut self) -> u64 {
        let moments = self.moments.as_slice();
        if self.at < moments.len() {
            self.last = self.last.max(moments[self.at]);
            self.at += 1;
        }
        self.last
    }
}
