//! The tokens of the profile's Java.
#![tactic(auto)]

mod characters;
mod comments;
mod element;
mod floats;
mod grammar;
mod literals;
mod numbers;
mod place;
mod reading;
mod signs;
mod values;
mod words;

pub use bj_token::{Token, TokenKind, Tokens};
pub use grammar::{faults_are_of_a_rule, tokens_are_derived};
pub use numbers::{Numeral, numeral_of};
pub use reading::tokens;
pub use values::{char_value, text_value};
