//! The built-in program: what a session can load until folders are read.
#![tactic(auto)]

mod cell;
mod laws;
mod parts;
mod prelude;
mod program;

pub use laws::{
    builtin_is_a_program, calls_of_cells_are_typed, cell_has_its_members, classes_stand_in_order,
    new_cells_are_typed, no_field_is_void,
};
pub use program::{CELL, CELL_ADD, CELL_GET, CELL_INIT, builtin};
