ghost use Rattle.std.specs.Prelude.{◌≡◌, IfOk};

use crate::Answer;
use bj_base::{Bytes, Copies, Fault, JText, Name, NoMemory, Seq};
use std::alloc::Global;

/// Why the answer of a job is dropped.
#[derive(Clone, Copy, Debug, PartialEq, Eq)]
pub enum Why {
    /// The project's version is no longer that of the job.
    Version { made: u64, now: u64 },
    /// The epoch is no longer that of the job.
    Epoch { made: u64, now: u64 },
    /// Want of memory.
    NoMemory,
}

/// Why a wait ends.
#[derive(Clone, Copy, Debug, PartialEq, Eq)]
pub enum Reason {
    /// There is no living thread.
    Idle,
    /// No thread can act, and one is halted.
    Halted,
    /// No thread can act, none has a deadline, and none is halted.
    Stuck,
    /// All acts are used.
    Spent,
    /// As many acts as were asked for are done.
    Still,
    /// No job waits or is out.
    Jobs,
}

/// How a test ended.
#[derive(Drop)]
pub enum Verdict {
    /// Without a throwable.
    Passed,
    /// With an AssertionError; an empty text stands for a message that is null.
    Failed(JText),
    /// With another throwable, of this class; an empty text stands for a message that is null.
    Error { class: Name, message: JText },
    /// At a limit.
    Limit,
    /// Where no thread could act.
    Stuck,
}

/// A test and how it ended.
#[derive(Drop)]
pub struct Tested {
    /// The test's class.
    pub class: Name,
    /// The test's method.
    pub method: Name,
    /// How it ended.
    pub verdict: Verdict,
}

/// Tests and how they ended.
pub type Verdicts = Seq<Tested>;

/// What a job that landed has found.
#[derive(Drop)]
pub enum Outcome {
    /// The sources are a program.
    Compiled,
    /// The sources have a fault.
    Faulted(Fault),
    /// The tests ended so.
    Tested(Verdicts),
    /// The replay gave the same results: so many, after so many actions.
    Same(u32, u64),
    /// The replay gave another result at this place, from 1; 0 where it ended before its place.
    Differs(u32),
    /// The replay met a limit.
    Limit,
}

/// One step of a session.
pub enum Entry {
    /// A thread's next action was done, with this answer.
    Act { thread: u32, answer: Answer },
    /// A console line was read, and replied so.
    Line { bytes: Bytes, reply: Bytes },
    /// A silent wait began.
    Pause,
    /// The clock was set, in milliseconds.
    Tick { now: u64 },
    /// A job was handed out.
    Taken { job: u64 },
    /// A job's outcome was taken in.
    Landed { job: u64, outcome: Outcome },
    /// A job's outcome was dropped.
    Dropped { job: u64, why: Why },
    /// The open wait ended.
    Woke { reason: Reason },
    /// A new epoch began.
    Reset,
}

// Written out, so that the drop of an entry is one call wherever it is let go.
impl Drop for Entry {
    fn drop(self) {
        match self {
            Entry::Line { bytes: _, reply: _ } => {}
            Entry::Landed { job: _, outcome: _ } => {}
            Entry::Act {
                thread: _,
                answer: _,
            }
            | Entry::Pause
            | Entry::Tick { now: _ }
            | Entry::Taken { job: _ }
            | Entry::Dropped { job: _, why: _ }
            | Entry::Woke { reason: _ }
            | Entry::Reset => {}
        }
    }
}

impl Copies for Verdict {
    fn copy(&self, alloc: Global) -> Result<Verdict, NoMemory> {
        match self {
            Verdict::Passed => Ok(Verdict::Passed),
            Verdict::Failed(message) => Ok(Verdict::Failed(message.copy(alloc)?)),
            Verdict::Error { class, message } => Ok(Verdict::Error {
                class: class.copy(alloc)?,
                message: message.copy(alloc)?,
            }),
            Verdict::Limit => Ok(Verdict::Limit),
            Verdict::Stuck => Ok(Verdict::Stuck),
        }
    }
}

impl Copies for Tested {
    fn copy(&self, alloc: Global) -> Result<Tested, NoMemory> {
        Ok(Tested {
            class: self.class.copy(alloc)?,
            method: self.method.copy(alloc)?,
            verdict: self.verdict.copy(alloc)?,
        })
    }
}

impl Copies for Outcome {
    fn copy(&self, alloc: Global) -> Result<Outcome, NoMemory> {
        match self {
            Outcome::Compiled => Ok(Outcome::Compiled),
            Outcome::Faulted(fault) => Ok(Outcome::Faulted(fault.copy(alloc)?)),
            Outcome::Tested(verdicts) => Ok(Outcome::Tested(verdicts.copy(alloc)?)),
            Outcome::Same(results, acts) => Ok(Outcome::Same(*results, *acts)),
            Outcome::Differs(place) => Ok(Outcome::Differs(*place)),
            Outcome::Limit => Ok(Outcome::Limit),
        }
    }
}

impl Copies for Entry {
    fn copy(&self, alloc: Global) -> Result<Entry, NoMemory> {
        match self {
            Entry::Act { thread, answer } => Ok(Entry::Act {
                thread: *thread,
                answer: *answer,
            }),
            Entry::Line { bytes, reply } => Ok(Entry::Line {
                bytes: bytes.copy(alloc)?,
                reply: reply.copy(alloc)?,
            }),
            Entry::Pause => Ok(Entry::Pause),
            Entry::Tick { now } => Ok(Entry::Tick { now: *now }),
            Entry::Taken { job } => Ok(Entry::Taken { job: *job }),
            Entry::Landed { job, outcome } => Ok(Entry::Landed {
                job: *job,
                outcome: outcome.copy(alloc)?,
            }),
            Entry::Dropped { job, why } => Ok(Entry::Dropped {
                job: *job,
                why: *why,
            }),
            Entry::Woke { reason } => Ok(Entry::Woke { reason: *reason }),
            Entry::Reset => Ok(Entry::Reset),
        }
    }
}
