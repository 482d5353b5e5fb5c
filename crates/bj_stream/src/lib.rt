//! The bytes of a session: the reader of pieces that cuts lines, and what is put into a sink.
#![tactic(auto)]

mod reader;
mod sending;

pub use reader::{Polled, Reader, Taken};
pub use sending::{Sent, put_all};
