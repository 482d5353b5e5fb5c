//! The outside: where bytes come from, where they go, and the clock.
#![tactic(auto)]

mod clock;
mod memory;
mod reading;
mod traits;
mod writing;

pub use clock::WallClock;
pub use memory::{MemClock, MemSink, MemSource};
pub use reading::Reading;
pub use traits::{Clock, Poll, Put, Sink, Source};
pub use writing::Writing;
