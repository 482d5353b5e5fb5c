ghost use Rattle.std.specs.Prelude.{◌≡◌, ◌++◌, ◌∷◌, [], List, OnOk, OnErr};
ghost use Rattle.bj_bench.specs.declared.names.BoundName.{BoundName as BoundNameOf};
ghost use Rattle.bj_bench.specs.Names.{bound_name, value_in, is_full};

use crate::BoundName;
use bj_core::{Name, NoMemory, Val};
use std::alloc::Global;
use std::marker::Model;

/// The most names on a bench.
pub const MOST_NAMES: usize = 1000;

/// The names on the bench, in the order in which they were bound.
#[derive(Drop)]
pub struct Bench {
    names: Vec<BoundName>,
}

impl Model for Bench {
    ghost use Rattle.std.specs.Prelude.{List};
    ghost use Rattle.bj_bench.specs.declared.names.BoundName.{BoundName};

    ghost Value = { List BoundName };

    ghost view = { λ bench. bench.names.items };
}

impl Bench {
    /// A bench without names, which takes no memory.
    pub fn new(alloc: Global) -> Bench
        ensures { result ≡ [] }
    {
        Bench {
            names: Vec::new(alloc),
        }
    }

    /// What a name stands for. Takes no memory.
    pub fn find(&self, name: &[u8]) -> Option<Val>
        ensures { result ≡ value_in self.now name.now }
    {
        find_in(self.names.as_slice(), name)
    }

    /// Whether no other name has room.
    pub fn is_full(&self) -> bool
        ensures { result ≡ is_full self.now }
    {
        MOST_NAMES <= self.names.len()
    }

    /// Binds a name behind the others.
    ///
    /// # Errors
    ///
    /// `NoMemory`, with the names as before.
    pub fn bind(&mut self, name: Name, value: Val) -> Result<(), NoMemory>
        ensures ok { OnOk result (self.new ≡ self.old ++ bound_name name value ∷ []) }
        ensures err { OnErr result (self.new ≡ self.old) }
    {
        match self.names.push(BoundName { name, value }) {
            Ok(()) => Ok(()),
            Err(_) => Err(NoMemory),
        }
    }

    /// Takes the name off that was bound last.
    pub fn take_back(&mut self)
        ensures { (front : List BoundNameOf) (last : BoundNameOf) → self.old ≡ front ++ last ∷ [] → self.new ≡ front }
    {
        let_go(self.names.pop());
    }
}

/// What a name among these stands for.
fn find_in(names: &[BoundName], name: &[u8]) -> Option<Val>
    ensures { result ≡ value_in names.now name.now }
{
    for bound in names {
        if bound.name.as_slice() == name {
            return Some(bound.value);
        }
    }
    None
}

/// Lets a name go. Its drop stands here alone, so that no caller's proof goes through it.
fn let_go(_bound: Option<BoundName>) {}
