ghost use Rattle.std.specs.Prelude.{◌≡◌, length, nat_lt};
ghost use Rattle.bj_core.specs.declared.action.Answer.{Answer};
ghost use Rattle.bj_core.specs.declared.program.Program.{Program};
ghost use Rattle.bj_store.specs.Objects.{new_object};
ghost use Rattle.bj_store.specs.React.{Reacts, made_of, block_of, spare as spec_spare, Makes, Answered};

use super::Store;
use crate::defaults::push_defaults;
use crate::reaction::{Block, Reaction, UNFIT};
use bj_core::{Answer, Class, Program, Ty, Val};
use bj_heap::HeapFault;

/// The object that is raised where the heap is full.
const SPARE: u32 = 4;

impl Store {
    /// Whether there is a class with this number.
    fn has_class(&self, class: u32) -> bool
        ensures { result ≡ nat_lt class (length self.now.classes) }
    {
        (class as usize) < self.classes.len()
    }

    /// Makes an object of a class with default values in its fields, and gives a reference to it.
    ///
    /// # Errors
    ///
    /// `Full` exactly where the object or its cells would pass a limit, and `NoMemory`; all is then as before.
    fn make_object(&mut self, classes: &[Class], class: u32) -> Result<Val, HeapFault>
        ensures { Makes result self.old self.new class (new_object classes.now class) }
    {
        let mut values = Vec::new(self.alloc);
        let Ok(()) = push_defaults(&mut values, classes, class, classes.len()) else {
            return Err(HeapFault::NoMemory);
        };
        match self.heap.make(class, values.as_slice()) {
            Err(fault) => Err(fault),
            Ok(number) => Ok(Val::Ref {
                object: number,
                of: Ty::Class(class),
            }),
        }
    }

    /// The spare OutOfMemoryError.
    pub(super) fn spare(&self) -> Val
        ensures { result ≡ spec_spare self.now }
    {
        Val::Ref {
            object: SPARE,
            of: Ty::Class(self.out_of_memory),
        }
    }

    /// Makes an object of a class. Where it would pass a limit, the answer is the given one.
    pub(super) fn make_or(&mut self, program: &Program, class: u32, full: Answer) -> Reaction
        ensures { Reacts result self.old self.new (made_of program.now self.old class (Answered full self.old)) }
    {
        if !self.has_class(class) {
            return Reaction::Blocked(UNFIT);
        }
        match self.make_object(program.classes.as_slice(), class) {
            Ok(value) => Reaction::Answered(Answer::Value(value)),
            Err(HeapFault::Full) => Reaction::Answered(full),
            Err(HeapFault::NoMemory) => Reaction::NoMemory,
        }
    }

    /// What the making of an object of a class is blocked by.
    pub(super) fn make_block(&self, class: u32) -> Option<Block>
        ensures { (program : Program) (full : Answer) → result ≡ block_of (made_of program self.now class (Answered full self.now)) }
    {
        if self.has_class(class) {
            return None;
        }
        Some(UNFIT)
    }
}
