//! The store: the state that all threads share, and what it answers to their actions.
#![tactic(auto)]

mod blocks;
mod defaults;
mod fields;
mod laws;
mod opening;
mod reaction;
mod row;
mod store;

pub use laws::{
    classes_are_initialized_once, ends_are_answered, fields_are_of_objects, fields_have_their_kind,
    first_objects_stay, initializations_are_answered, kept_states_stay_kept, made_objects_are_new,
    made_objects_are_of_their_class, new_stores_are_kept, threads_stay, what_is_put_is_what_is_got,
};
pub use reaction::{Block, Reaction};
pub use row::{Initialization, ThreadRow};
pub use store::Store;
