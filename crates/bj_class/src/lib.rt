//! The reader of files with their classes.
#![tactic(auto)]

mod annotations;
mod bodies;
mod constructors;
mod fields;
mod head;
mod imports;
mod member;
mod methods;
mod modifiers;
mod names;
mod parameters;
mod prefix;
mod tokens;

pub use annotations::annotation_at;
pub use head::{ClassHead, head_at};
pub use imports::import_at;
pub use member::member_at;
pub use modifiers::modifiers_at;
pub use tokens::{is_called, is_static_block};
