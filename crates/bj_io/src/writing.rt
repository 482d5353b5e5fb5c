ghost use Rattle.std.specs.Prelude.{◌≡◌, ◌≤◌, None};
ghost use Rattle.bj_io.specs.Told.{Rose};

use crate::{Put, Sink};
use std::io::Write;

/// A sink over a writer of std, which tells nothing of its bytes. That nothing is taken of a piece is a fault.
#[derive(Drop)]
pub struct Writing<W: Write + Drop> {
    inner: W,
    faults: u64,
}

impl<W: Write + Drop> Writing<W> {
    /// A sink whose bytes are written to `inner`.
    pub fn new(inner: W) -> Writing<W>
        ensures { result.faults ≡ 0 }
    {
        Writing { inner, faults: 0 }
    }

    fn fault(&mut self) -> Put
        ensures failed { result ≡ Put.Failed }
        ensures rose { Rose self.old.faults self.new.faults }
        ensures rises { self.old.faults ≤ self.new.faults }
    {
        self.faults = self.faults.saturating_add(1);
        Put::Failed
    }
}

impl<W: Write + Drop> Sink for Writing<W> {
    ghost held = { λ _. None };

    ghost faults = { λ s. s.faults };

    fn put(&mut self, bytes: &[u8]) -> Put {
        if bytes.is_empty() {
            return Put::Took(0);
        }
        match self.inner.write(bytes) {
            Ok(0) => self.fault(),
            Ok(count) => Put::Took(count),
            Err(_) => self.fault(),
        }
    }
}
