//! What is written: values, inspections and events.
#![tactic(auto)]

mod events;
mod texts;
mod viewing;
mod wait;

pub use events::{end_text, woke_text, written_text};
pub use texts::add_value;
pub use viewing::inspection;
pub use wait::Wait;
