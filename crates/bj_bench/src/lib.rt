//! The names on the bench, and what they stand for.
#![tactic(auto)]

mod bench;
mod laws;
mod names;
mod plain;

pub use bench::Bench;
pub use laws::bound_names_stand_for_their_objects;
pub use names::BoundName;
pub use plain::is_plain;
