//! The ends over which tests run, and what a run leaves on them.
//!
//! What a run leaves is owned here and in the tests alone, and let go by `dismiss` alone: the drop of a log, with each form of an entry, goes
//! through the proof of each function that lets one go. All else looks at it by reference.

ghost use Rattle.std.specs.Prelude.{◌≡◌, false, IfOk};

use bj_core::{NoMemory, Numbers, Seq};
use bj_io::{MemClock, MemSink, MemSource};
use bj_session::{Ends, Finish};
use std::alloc::Global;

/// Ends in memory.
pub type MemEnds = Ends<MemSource, MemSink, MemClock>;

/// What a run over memory leaves.
pub type Done = Finish<MemSource, MemSink, MemClock>;

/// Ends in memory over this input, of which some polls find nothing or fail, and some puts fail.
pub fn faulty_ends(
    alloc: Global,
    input: &[u8],
    failing_polls: Numbers,
    empty_polls: Numbers,
    failing_puts: Numbers,
) -> Result<MemEnds, NoMemory>
    ensures { IfOk result (λ e. e.source.ended ≡ false) }
{
    let bytes = Seq::from_slice(alloc, input)?;
    Ok(Ends {
        source: MemSource::new(bytes, failing_polls, empty_polls),
        sink: MemSink::new(Seq::new(alloc), failing_puts),
        clock: MemClock::new(Seq::new(alloc)),
    })
}

/// Ends in memory over this input, without faults.
pub fn ends_of(alloc: Global, input: &[u8]) -> Result<MemEnds, NoMemory>
    ensures { IfOk result (λ e. e.source.ended ≡ false) }
{
    faulty_ends(
        alloc,
        input,
        Seq::new(alloc),
        Seq::new(alloc),
        Seq::new(alloc),
    )
}

/// Lets go what a run leaves. Its drop stands here alone.
pub fn dismiss(_finish: Done) {}

/// Whether a run ended with this status and wrote this.
pub fn has_written(finish: &Done, status: u8, output: &[u8]) -> bool {
    finish.status == status && finish.ends.sink.held().as_slice() == output
}

/// Whether there was a run, and it ended with this status and wrote this.
pub fn wrote(finish: Result<Done, NoMemory>, status: u8, output: &[u8]) -> bool {
    match finish {
        Ok(finish) => {
            let found = has_written(&finish, status, output);
            dismiss(finish);
            found
        }
        Err(_) => false,
    }
}
