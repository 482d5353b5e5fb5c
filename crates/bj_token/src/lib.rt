//! What the tokens of the profile's Java are.
#![tactic(auto)]

mod token;

pub use token::{Token, TokenKind, Tokens};
