ghost use Rattle.std.specs.Prelude.{◌≡◌};
ghost use Rattle.bj_eval.specs.Frames.{invocation_of_term};

use bj_core::{NO_CLASS, Val};

/// Which body runs, and on which object [JLS 15.12.4.4]. It stays the same while the body runs.
#[derive(Clone, Copy, Debug, PartialEq, Eq)]
pub struct Invocation {
    /// The class whose body runs; `NO_CLASS` for a term.
    pub class: u32,
    /// The method that runs; the number of the class's methods for what initializes the class, and `NO_CLASS` for a term.
    pub method: u32,
    /// `this`, or null where there is none.
    pub this: Val,
}

impl Invocation {
    /// That of a term.
    pub fn of_term() -> Invocation
        ensures { result ≡ invocation_of_term }
    {
        Invocation {
            class: NO_CLASS,
            method: NO_CLASS,
            this: Val::Null,
        }
    }
}
