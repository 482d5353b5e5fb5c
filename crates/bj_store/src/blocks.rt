ghost use Rattle.std.specs.Prelude.{◌≡◌, ℕ};
ghost use Rattle.bj_core.specs.declared.types.Val.{Val};
ghost use Rattle.bj_store.specs.State.{State};
ghost use Rattle.bj_store.specs.React.{got, put, begun, ended, block_of};

use crate::fields::replaces;
use crate::reaction::{Block, UNFIT};
use crate::row::Initialization;
use bj_core::Val;

/// What a read of a field is blocked by, where this value was found.
pub fn get_block(found: Option<Val>) -> Option<Block>
    ensures { (s : State) → result ≡ block_of (got s found) }
{
    match found {
        None => Some(UNFIT),
        Some(_) => None,
    }
}

/// What a write of a field is blocked by, where this value was found.
pub fn put_block(found: Option<Val>, value: Val) -> Option<Block>
    ensures { (s : State) (object : Val) (slot : ℕ) → result ≡ block_of (put s object slot value found) }
{
    match found {
        None => Some(UNFIT),
        Some(old) => {
            if replaces(value, old) {
                return None;
            }
            Some(UNFIT)
        }
    }
}

/// What a class's initialization is blocked by, where it was found so far.
pub fn begin_block(found: Option<Initialization>, thread: u32, class: u32) -> Option<Block>
    ensures { (s : State) → result ≡ block_of (begun s thread class found) }
{
    match found {
        None => Some(UNFIT),
        Some(Initialization::By(other)) => {
            if other == thread {
                return None;
            }
            Some(Block::Initializing {
                class,
                thread: other,
            })
        }
        Some(_) => None,
    }
}

/// What the end of a class's initialization is blocked by, where it was found so far.
pub fn end_block(found: Option<Initialization>, thread: u32) -> Option<Block>
    ensures { (s : State) (class : ℕ) → result ≡ block_of (ended s thread class found) }
{
    match found {
        Some(Initialization::By(other)) => {
            if other == thread {
                return None;
            }
            Some(UNFIT)
        }
        _ => Some(UNFIT),
    }
}
