//! What a term does: evaluation of the core tree over a list of answers, and which terms are typed.
#![tactic(auto)]

mod activation;
mod invocation;
mod laws;

pub use activation::{Activation, Variable, Variables};
pub use invocation::Invocation;
pub use laws::{
    arguments_are_the_values_of_parameters, assignment_has_what_is_written,
    call_has_what_is_returned, class_is_initialized_in_a_frame, field_has_what_is_read,
    initialization_comes_before_memory, instance_initializers_come_before_the_body,
    memory_comes_before_arguments, point_comes_first, right_side_comes_before_assignment,
    typed_terms_go_on, value_comes_last, want_of_memory_is_thrown,
};
