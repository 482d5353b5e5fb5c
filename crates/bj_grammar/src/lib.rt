//! The terminal symbols of the profile's grammar, and the steps that the readers of its rules are made of.
#![tactic(auto)]

mod spelling;
mod stop;
mod symbol;
mod terminal;
mod text;

pub use spelling::is;
pub use stop::{Stop, out_of_turns};
pub use symbol::Symbol;
pub use terminal::Terminal;
pub use text::{among, peek, place, sees, taken, units, word};
