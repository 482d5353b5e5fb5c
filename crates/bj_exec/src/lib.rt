//! A Java thread: it runs the code of its term, and asks for one action after another.
#![tactic(auto)]

mod advancing;
mod answering;
mod frames;
mod leaving;
mod run;
mod thread;

pub use frames::CallFrames;
pub use run::{Run, Want};
pub use thread::Thread;
