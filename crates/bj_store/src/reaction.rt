use bj_core::{Answer, Key};

/// Why an action cannot be answered now.
#[derive(Clone, Copy, Debug, PartialEq, Eq)]
pub enum Block {
    /// Another thread owns the monitor.
    Owned { key: Key, owner: u32 },
    /// The thread is in the wait set of the object.
    Waiting { object: u32 },
    /// The thread sleeps. This stands also for an action that does not fit the state, which is never answered.
    Sleeping,
    /// The other thread lives.
    Joining { thread: u32 },
    /// No line of the input is unread, and the input has not ended.
    Reading,
    /// Another thread initializes the class.
    Initializing { class: u32, thread: u32 },
}

/// What stands in the way of an action that does not fit the state, or is not built yet.
pub const UNFIT: Block = Block::Sleeping;

/// What the store makes of an action.
#[derive(Clone, Copy, Debug, PartialEq, Eq)]
pub enum Reaction {
    /// It is done, with this answer.
    Answered(Answer),
    /// It cannot be done now.
    Blocked(Block),
    /// Want of memory.
    NoMemory,
}
