//! The history of a bench: what holds after its entries, which may come next, and what they print.
#![tactic(auto)]

mod laws;
mod opening;

pub use laws::{
    acts_are_within_the_limit, each_entry_may_come, names_stand_for_one_object,
    written_is_the_printing_of_each,
};
pub use opening::Opening;
