//! The tests of texts, tokens and texts that are written token by token. They stand here because a crate with tests is proved twice, with and without them.
#![tactic(auto)]

#[cfg(test)]
mod operators;
#[cfg(test)]
mod texts;
#[cfg(test)]
mod tokens;
#[cfg(test)]
mod writers;
