//! What the profile's Java asks of imports, of what stands before the members of a class, and of members, beyond the grammar.
#![tactic(auto)]

mod annotation;
mod head;
mod import;
mod laws;
mod mark;
mod member;
mod misfit;
mod modifier;
mod place;
mod size;
mod start;
mod words;

pub use annotation::annotation_misfit;
pub use head::head_misfit;
pub use import::import_misfit;
pub use laws::{
    fit_modifiers_have_no_misfit, misfits_are_of_the_first_that_does_not_fit,
    modifiers_without_misfit_fit,
};
pub use member::{field_place, member_misfit, method_place};
pub use misfit::Misfit;
pub use modifier::{modifier_misfit, modifiers_misfit};
pub use place::Place;
