ghost use Rattle.std.specs.Prelude.{◌≡◌};
ghost use Rattle.bj_grammar.specs.declared.stop.Stop.TheVariants as stops;
ghost use Rattle.bj_grammar.specs.Reader.{nowhere};

use bj_base::{NoMemory, Span};
use std::alloc::AllocError;

/// Why a rule reads no further.
#[derive(Clone, Copy, Debug, PartialEq, Eq, Drop)]
pub enum Stop {
    /// Want of memory.
    Memory,
    /// The place of the first token with which nothing goes on.
    Syntax(usize),
    /// Where a node stands that has too many above it.
    Deep(Span),
}

/// Why a loop stops that has taken as many turns as it may. None does that may take more than there are tokens.
pub fn out_of_turns() -> Stop
    ensures { result ≡ stops.Deep nowhere }
{
    Stop::Deep(Span { line: 0, column: 0 })
}

impl From<AllocError> for Stop {
    ghost use Rattle.std.specs.Prelude.{◌≡◌};
    ghost use Rattle.bj_grammar.specs.declared.stop.Stop.TheVariants.{Memory};

    ghost from_gives = { λ _ e. e ≡ Memory };

    fn from(_: AllocError) -> Stop {
        Stop::Memory
    }
}

impl From<NoMemory> for Stop {
    ghost use Rattle.std.specs.Prelude.{◌≡◌};
    ghost use Rattle.bj_grammar.specs.declared.stop.Stop.TheVariants.{Memory};

    ghost from_gives = { λ _ e. e ≡ Memory };

    fn from(_: NoMemory) -> Stop {
        Stop::Memory
    }
}
