ghost use Rattle.std.specs.Prelude.{◌≡◌, None, Bool};

use crate::{Poll, Source};
use std::io::Read;

/// A source over a reader of std, which tells nothing of its bytes. It reads in place, so that it waits for them and never
/// answers `NotYet`.
#[derive(Drop)]
pub struct Reading<R: Read + Drop> {
    inner: R,
    polls: u64,
    faults: u64,
    ended: bool,
}

impl<R: Read + Drop> Reading<R> {
    /// A source of the bytes that are read from `inner`.
    pub fn new(inner: R) -> Reading<R>
        ensures { result.ended ≡ Bool.false }
    {
        Reading {
            inner,
            polls: 0,
            faults: 0,
            ended: false,
        }
    }
}

impl<R: Read + Drop> Source for Reading<R> {
    ghost left = { λ _. None };

    ghost faults = { λ s. s.faults };

    ghost waits = { λ _. 0 };

    ghost polls = { λ s. s.polls };

    ghost ended = { λ s. s.ended };

    fn poll(&mut self, into: &mut [u8]) -> Poll {
        self.polls = self.polls.saturating_add(1);
        match self.inner.read(into) {
            Ok(0) => {
                self.ended = true;
                Poll::End
            }
            Ok(count) => Poll::Got(count),
            Err(_) => {
                self.faults = self.faults.saturating_add(1);
                Poll::Failed
            }
        }
    }
}
