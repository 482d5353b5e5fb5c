ghost use Rattle.std.specs.Prelude.{◌≤◌, Option, IfOk, OnOk, OnErr};
ghost use Rattle.bj_core.specs.declared.frame.Term.{Term as TermOf};
ghost use Rattle.bj_machine.specs.Shown.{IsSame};
ghost use Rattle.bj_machine.specs.Reset.{CanBegin, CanLoad, HasReset, IsBeginning, program_after};

use crate::Loaded;
use crate::beginning::{Beginning, begin_over};
use crate::dropped::{abandon, decline, dismiss};
use crate::laws::stores_know_what_lives;
use crate::loaded::{load, program_then};
use crate::machine::Machine;
use bj_core::{Entry, NoMemory, Term};
use bj_store::new_stores_are_kept;

impl Machine {
    /// Makes all that a reset needs memory for: room in the log for two entries, a new store, and a thread that is about to
    /// begin with the term, if there is one.
    ///
    /// # Errors
    ///
    /// `NoMemory`.
    fn foresee(&mut self, next: &Option<Loaded>, term: Option<Term>) -> Result<Beginning, NoMemory>
        requires { CanBegin (program_after next.now self.old.program) term }
        ensures same { IsSame self.old self.new }
        ensures room { OnOk result (2 ≤ self.new.log.room) }
        ensures made { IfOk result (λ beginning. IsBeginning (program_after next.now self.old.program) self.old.limits term beginning) }
    {
        match self.log.reserve(2) {
            Ok(()) => {}
            Err(_) => return Err(NoMemory),
        }
        begin_over(
            self.alloc,
            program_then(next, &self.program),
            self.limits,
            term,
        )
    }

    /// Begins anew with what was made for it. Takes no memory.
    fn begin_anew(&mut self, first: Entry, next: Option<Loaded>, beginning: Beginning)
        requires room { 2 ≤ self.old.log.room }
        requires next { CanLoad next }
        requires made { (term : Option TermOf) × IsBeginning (program_after next self.old.program) self.old.limits term beginning }
        ensures { (term : Option TermOf) → IsBeginning (program_after next self.old.program) self.old.limits term beginning → HasReset self.old self.new first next term }
    {
        new_stores_are_kept();
        stores_know_what_lives();
        self.log.put(first, None);
        self.log.put(Entry::Reset, None);
        load(&mut self.program, &mut self.code, next);
        let Beginning { store, main } = beginning;
        abandon(std::mem::replace(&mut self.store, store));
        dismiss(std::mem::replace(&mut self.main, main));
    }

    /// Logs the first entry and directly after it `Reset`, loads the next program, if there is one, makes the store anew,
    /// and begins with the term, if there is one. The limits and the count of acts stay.
    ///
    /// # Errors
    ///
    /// `NoMemory`, with the machine as before.
    pub fn reset(
        &mut self,
        first: Entry,
        next: Option<Loaded>,
        term: Option<Term>,
    ) -> Result<(), NoMemory>
        requires next { CanLoad next }
        requires term { CanBegin (program_after next self.old.program) term }
        ensures reset { OnOk result (HasReset self.old self.new first next term) }
        ensures err { OnErr result (IsSame self.old self.new) }
    {
        match self.foresee(&next, term) {
            Ok(beginning) => {
                self.begin_anew(first, next, beginning);
                Ok(())
            }
            Err(_) => {
                decline(first, next);
                Err(NoMemory)
            }
        }
    }
}
