ghost use Rattle.std.specs.Prelude.{◌≡◌, ◌≢◌, slice_get};
ghost use Rattle.bj_store.specs.React.{Reacts, begun, ended_by};
ghost use Rattle.bj_store.specs.declared.reaction.Reaction.TheVariants as reaction;

use super::Store;
use crate::reaction::{Block, Reaction, UNFIT};
use crate::row::Initialization;
use bj_core::Answer;

impl Store {
    /// How far a class's initialization is, if there is one with this number.
    pub(super) fn initialization(&self, class: u32) -> Option<Initialization>
        ensures { result ≡ slice_get self.now.classes class }
    {
        self.classes.get(class as usize).copied()
    }

    /// A thread asks for a class's initialization [JLS 12.4.2].
    pub(super) fn begin_class(&mut self, thread: u32, class: u32) -> Reaction
        ensures row { Reacts result self.old self.new (begun self.old thread class (slice_get self.old.classes class)) }
        ensures memory { result ≢ reaction.NoMemory }
    {
        let Some(found) = self.initialization(class) else {
            return Reaction::Blocked(UNFIT);
        };
        match found {
            Initialization::Untouched => {
                self.classes[class as usize] = Initialization::By(thread);
                Reaction::Answered(Answer::Go)
            }
            Initialization::By(other) => {
                if other == thread {
                    return Reaction::Answered(Answer::Ready);
                }
                Reaction::Blocked(Block::Initializing {
                    class,
                    thread: other,
                })
            }
            Initialization::Ready => Reaction::Answered(Answer::Ready),
        }
    }

    /// A thread ends a class's initialization. What has failed is not built yet.
    pub(super) fn end_class(&mut self, thread: u32, class: u32, ok: bool) -> Reaction
        ensures row { Reacts result self.old self.new (ended_by self.old thread class ok) }
        ensures memory { result ≢ reaction.NoMemory }
    {
        if !ok {
            return Reaction::Blocked(UNFIT);
        }
        let Some(Initialization::By(other)) = self.initialization(class) else {
            return Reaction::Blocked(UNFIT);
        };
        if other != thread {
            return Reaction::Blocked(UNFIT);
        }
        self.classes[class as usize] = Initialization::Ready;
        Reaction::Answered(Answer::Done)
    }
}
