ghost use Rattle.std.specs.Prelude.{◌≡◌, ◌≢◌, ◌<◌, Some, None, true, false, length, IfOk};
ghost use Rattle.bj_core.specs.declared.program.Program.{Program};
ghost use Rattle.bj_heap.specs.Objects.{own_at};
ghost use Rattle.bj_store.specs.State.{fresh, lives as spec_lives, with_lives, field_of};
ghost use Rattle.bj_store.specs.React.{Reacts, react, got, put as spec_put, block_of, takes_memory};
ghost use Rattle.bj_store.specs.declared.reaction.Reaction.TheVariants as reaction;

mod classes;
mod making;

use crate::blocks::{begin_block, end_block, get_block, put_block};
use crate::defaults::class_named;
use crate::fields::{field, referred, replaces};
use crate::opening::{first_heap, first_states, first_threads};
use crate::reaction::{Block, Reaction, UNFIT};
use crate::row::{Initialization, ThreadRow, is_living, set_lives};
use bj_core::{Action, Answer, Limits, NoMemory, Program, Ty, Val};
use bj_heap::Heap;
use std::alloc::Global;
use std::marker::Model;

/// The state that all threads share: objects with the values of their fields, threads, and the initialization of classes.
///
/// Object 1 is the Thread of `main`, 2 is `System.out`, 3 is `System.in`, and 4 is a spare OutOfMemoryError, which is
/// raised where the heap is full.
#[derive(Drop)]
pub struct Store {
    alloc: Global,
    heap: Heap,
    threads: Vec<ThreadRow>,
    classes: Vec<Initialization>,
    out_of_memory: u32,
    clock: u64,
}

impl Model for Store {
    ghost use Rattle.bj_store.specs.State.{State};

    ghost Value = { State };

    ghost use Rattle.std.specs.Prelude.{◌<◌, ◌^◌, length};

    ghost view = { λ s. record { heap = s.heap.state; threads = s.threads.items; classes = s.classes.items; out_of_memory = s.out_of_memory; clock = s.clock } };

    ghost invariant = { λ s. length s.threads.items < 2 ^ 32 };
}

impl Store {
    /// A store with its four first objects and one thread, 1, that of `main`, which has no term. The prelude's classes
    /// are initialized.
    ///
    /// # Errors
    ///
    /// `NoMemory` for want of memory, and where the limits have no room for the four objects.
    pub fn new(alloc: Global, program: &Program, limits: Limits) -> Result<Store, NoMemory>
        ensures { IfOk result (λ s. s ≡ fresh program.now limits) }
    {
        let classes = program.classes.as_slice();
        let heap = first_heap(alloc, classes, limits.heap)?;
        let threads = first_threads(alloc)?;
        let states = first_states(alloc, classes)?;
        Ok(Store {
            alloc,
            heap,
            threads,
            classes: states,
            out_of_memory: class_named(classes, b"OutOfMemoryError"),
            clock: 0,
        })
    }

    /// Gives the thread of `main` a term, so that it lives until its next `End`.
    pub fn begin(&mut self)
        ensures { self.new ≡ with_lives self.old 1 true }
    {
        set_lives(&mut self.threads, 1, true);
    }

    /// The objects.
    pub fn heap(&self) -> &Heap
        ensures { result.now.state ≡ self.now.heap }
    {
        &self.heap
    }

    /// The type of which an object of the store was made.
    pub fn own(&self, object: u32) -> Ty
        requires { own_at self.now.heap.objects object ≢ None }
        ensures { Some result ≡ own_at self.now.heap.objects object }
    {
        match self.heap.own(object) {
            Some(ty) => ty,
            None => unreachable!(),
        }
    }

    /// How many threads have begun.
    pub fn threads(&self) -> u32
        ensures { result ≡ length self.now.threads }
    {
        self.threads.len() as u32
    }

    /// The state's clock, in milliseconds.
    pub fn clock(&self) -> u64
        ensures { result ≡ self.now.clock }
    {
        self.clock
    }

    /// Whether the thread has a term that is not over.
    pub fn lives(&self, thread: u32) -> bool
        ensures { result ≡ spec_lives self.now thread }
    {
        is_living(self.threads.as_slice(), thread)
    }

    /// Reads a field [JLS 15.11.1].
    fn get(&self, object: Val, slot: u32) -> Reaction
        ensures row { Reacts result self.now self.now (got self.now (field_of self.now object slot)) }
        ensures memory { result ≢ reaction.NoMemory }
    {
        match field(&self.heap, object, slot) {
            None => Reaction::Blocked(UNFIT),
            Some(value) => Reaction::Answered(Answer::Value(value)),
        }
    }

    /// Writes a field [JLS 15.26.1]. Its value is replaced by one of its kind only.
    fn put(&mut self, object: Val, slot: u32, value: Val) -> Reaction
        ensures row { Reacts result self.old self.new (spec_put self.old object slot value (field_of self.old object slot)) }
        ensures memory { result ≢ reaction.NoMemory }
    {
        let Some(old) = field(&self.heap, object, slot) else {
            return Reaction::Blocked(UNFIT);
        };
        if !replaces(value, old) {
            return Reaction::Blocked(UNFIT);
        }
        if let Some(number) = referred(object) {
            self.heap.put(number, slot, value);
        }
        Reaction::Answered(Answer::Done)
    }

    /// The reaction to a thread's action. An action that does not fit the state, or is of a kind that is not built yet,
    /// is `Blocked(Block::Sleeping)`. Only `Make` and `Raise` take memory.
    ///
    /// At `Blocked` and at `NoMemory` all is as before.
    pub fn react(&mut self, program: &Program, thread: u32, action: &Action) -> Reaction
        ensures row { Reacts result self.old self.new (react program.now self.old thread action.now) }
        ensures memory { takes_memory action.now ≡ false → result ≢ reaction.NoMemory }
    {
        if !self.lives(thread) {
            return Reaction::Blocked(UNFIT);
        }
        match action {
            Action::Point(_) => Reaction::Answered(Answer::Done),
            Action::Get { object, slot } => self.get(*object, *slot),
            Action::Put {
                object,
                slot,
                value,
            } => self.put(*object, *slot, *value),
            Action::Make { class } => {
                self.make_or(program, *class, Answer::Thrown(self.out_of_memory))
            }
            Action::InitBegin { class } => self.begin_class(thread, *class),
            Action::InitEnd { class, ok } => self.end_class(thread, *class, *ok),
            Action::Raise { class, message } => match message {
                None => self.make_or(program, *class, Answer::Value(self.spare())),
                Some(_) => Reaction::Blocked(UNFIT),
            },
            Action::End { .. } => {
                set_lives(&mut self.threads, thread, false);
                Reaction::Answered(Answer::Done)
            }
            _ => Reaction::Blocked(UNFIT),
        }
    }

    /// Why an action of a thread is not answered now: Some exactly where `react` answers `Blocked`, with what it is
    /// blocked by. It takes no memory.
    pub fn blocked(&self, thread: u32, action: &Action) -> Option<Block>
        ensures { (program : Program) → result ≡ block_of (react program self.now thread action.now) }
    {
        if !self.lives(thread) {
            return Some(UNFIT);
        }
        match action {
            Action::Point(_) | Action::End { .. } => None,
            Action::Get { object, slot } => get_block(field(&self.heap, *object, *slot)),
            Action::Put {
                object,
                slot,
                value,
            } => put_block(field(&self.heap, *object, *slot), *value),
            Action::Make { class } => self.make_block(*class),
            Action::InitBegin { class } => begin_block(self.initialization(*class), thread, *class),
            Action::InitEnd { class, ok } => {
                if *ok {
                    return end_block(self.initialization(*class), thread);
                }
                Some(UNFIT)
            }
            Action::Raise { class, message } => match message {
                None => self.make_block(*class),
                Some(_) => Some(UNFIT),
            },
            _ => Some(UNFIT),
        }
    }
}
