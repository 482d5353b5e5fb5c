//! What is let go. The drops of large types stand here alone, so that no caller's proof goes through them.

use crate::Loaded;
use bj_code::Code;
use bj_core::{Entry, Program};
use bj_exec::Thread;
use bj_store::Store;

/// Lets a thread go.
pub fn dismiss(_thread: Option<Thread>) {}

/// Lets a program and its code go.
pub fn forsake(_program: Program, _code: Code) {}

/// Lets a store go.
pub fn abandon(_store: Store) {}

/// Lets go of what a reset was to begin with.
pub fn decline(_first: Entry, _next: Option<Loaded>) {}
