ghost use Rattle.std.specs.Prelude.{◌≡◌, ◌≤◌};
ghost use Rattle.bj_io.specs.Told.{Rose};
ghost use Rattle.bj_stream.specs.Sending.{IsSent};

use bj_io::{Put, Sink};

/// How far a piece was sent.
#[derive(Clone, Copy, Debug, PartialEq, Eq)]
pub enum Sent {
    /// All of it.
    All,
    /// A part of it, then the sink failed.
    Failed,
    /// A part of it, then memory was wanting.
    NoMemory,
}

/// Puts a piece, and what is left of it again.
pub fn put_all<K: Sink>(sink: &mut K, bytes: &[u8]) -> Sent
    ensures sent { IsSent result bytes.now (K.held sink.old) (K.held sink.new) }
    ensures faults { K.faults sink.old ≤ K.faults sink.new }
    ensures failed { result ≡ Sent.Failed → Rose (K.faults sink.old) (K.faults sink.new) }
{
    let mut at = 0;
    while at < bytes.len() {
        match sink.put(&bytes[at..]) {
            Put::Took(count) => at += count,
            Put::Failed => return Sent::Failed,
            Put::NoMemory => return Sent::NoMemory,
        }
    }
    Sent::All
}
