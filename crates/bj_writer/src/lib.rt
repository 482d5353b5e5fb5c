//! Texts that are written token by token.
#![tactic(auto)]

mod law;
mod writer;

pub use law::written_tokens_are_read;
pub use writer::{Last, Writer};
