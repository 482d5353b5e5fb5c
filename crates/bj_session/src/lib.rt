//! The session: what is read, what is done, and what is written.
#![tactic(auto)]

mod desk;
mod ends;
mod entering;
mod naming;
mod session;

pub use desk::{Decision, Desk};
pub use ends::{Ending, Ends, Finish, Turn};
pub use session::Session;
