ghost use Rattle.std.specs.Prelude.{◌≡◌, ℕ, List, [], ◌∷◌, ◌++◌, ◌<◌, ◌≤◌, Some, IfOk, OnOk, OnErr};
ghost use Rattle.bj_code.specs.ProgramCode.{program_code};
ghost use Rattle.bj_code.specs.TermCode.{term_code};
ghost use Rattle.bj_code.specs.declared.code.Code.{Code};
ghost use Rattle.bj_core.specs.declared.action.Action.{Action};
ghost use Rattle.bj_core.specs.declared.action.Action.TheVariants.{End};
ghost use Rattle.bj_core.specs.declared.action.Answer.{Answer};
ghost use Rattle.bj_core.specs.declared.action.Done.{Done};
ghost use Rattle.bj_core.specs.declared.frame.Term.{Term};
ghost use Rattle.bj_core.specs.declared.program.Program.{Program};
ghost use Rattle.bj_eval.specs.Allowed.{Allows};
ghost use Rattle.bj_eval.specs.Next.{next_of};
ghost use Rattle.bj_eval.specs.Typed.{IsTyped};
ghost use Rattle.bj_exec.specs.Follows.{Follows, IsOn, Awaits};
ghost use Rattle.bj_exec.specs.Machine.{frames_of, moves_left};

use crate::advancing::advance_run;
use crate::answering::answer_run;
use crate::run::shown_of;
use crate::{CallFrames, Run, Want};
use bj_code::{CallFrame, Code, CodeBody, Operands};
use bj_core::{Action, Answer, Frames, NoMemory, Program, Term};
use bj_eval::{Activation, Invocation, typed_terms_go_on};
use std::alloc::Global;

/// A Java thread, which runs a term.
pub struct Thread {
    /// The term.
    term: Term,
    /// Its code.
    body: CodeBody,
    /// How many frames the thread may have.
    limit: u32,
    /// Where it is.
    run: Run,
}

// Written out, so that the drop of a thread is one call wherever it is let go.
impl Drop for Thread {
    fn drop(self) {
        let Thread {
            term: _,
            body: _,
            limit: _,
            run: _,
        } = self;
    }
}

impl Thread {
    /// A thread that begins with a term, and may have so many frames. Over each program over which the term is typed, and of
    /// which the body is the term's code, it follows the term.
    ///
    /// # Errors
    ///
    /// `NoMemory` where there is no room for the term's frame.
    pub fn start(alloc: Global, term: Term, body: CodeBody, frames: u32) -> Result<Thread, NoMemory>
        requires { 2 ≤ frames }
        ensures { IfOk result (λ t. (program : Program) (code : Code) → IsTyped program term → body ≡ term_code program term → code ≡ program_code program → Follows program code frames term [] t) }
    {
        typed_terms_go_on();
        let top = CallFrame {
            invocation: Invocation::of_term(),
            activation: Activation::of_term(alloc, &term)?,
            place: 0,
            operands: Operands::new(alloc, body.depth)?,
        };
        Ok(Thread {
            term,
            body,
            limit: frames,
            run: Run {
                want: Want::Move,
                top,
                below: CallFrames::new(alloc),
            },
        })
    }

    /// The term.
    pub fn term(&self) -> &Term
        ensures { (program : Program) (code : Code) (limit : ℕ) (term : Term) (answers : List Answer) → Follows program code limit term answers self.now → result.now ≡ term }
    {
        &self.term
    }

    /// What the thread wants: an instruction, the action that its term wants next, or nothing, where its term is over.
    /// Takes no memory.
    pub fn want(&self) -> &Want
        ensures is { result.now ≡ self.now.run.want }
        ensures acts { (a : Action) → result.now ≡ Want.Do a → (program : Program) (code : Code) (limit : ℕ) (term : Term) (answers : List Answer) → Follows program code limit term answers self.now
            → next_of program limit term answers ≡ Some (record { action = a; frames = frames_of self.now }) }
        ensures ends { (d : Done) → result.now ≡ Want.Over d → (program : Program) (code : Code) (limit : ℕ) (term : Term) (answers : List Answer) → Follows program code limit term answers self.now
            → next_of program limit term answers ≡ Some (record { action = End d; frames = frames_of self.now }) }
    {
        &self.run.want
    }

    /// The frames of the thread, the newest first.
    ///
    /// # Errors
    ///
    /// `NoMemory` where there is no room for them.
    pub fn frames(&self, alloc: Global) -> Result<Frames, NoMemory>
        ensures { IfOk result (λ fs. fs ≡ frames_of self.now) }
    {
        shown_of(alloc, &self.run)
    }

    /// Does one instruction, where the thread wants one. It goes on following its term, and is nearer to its next action.
    ///
    /// # Errors
    ///
    /// `NoMemory`, with the thread as before.
    pub fn advance(
        &mut self,
        alloc: Global,
        _program: &Program,
        code: &Code,
    ) -> Result<(), NoMemory>
        requires moves { self.old.run.want ≡ Want.Move }
        requires on { IsOn _program.now code.now self.old }
        ensures follows { OnOk result ((limit : ℕ) (term : Term) (answers : List Answer) → Follows _program.now code.now limit term answers self.old → Follows _program.now code.now limit term answers self.new) }
        ensures nearer { OnOk result (moves_left code.now self.new < moves_left code.now self.old) }
        ensures err { OnErr result (self.new ≡ self.old) }
    {
        typed_terms_go_on();
        advance_run(alloc, &mut self.run, code, &self.body)
    }

    /// Takes the answer to the action that the thread wants, and hands the action back. Takes no memory: its room was
    /// made with the frame.
    pub fn answer(&mut self, answer: Answer) -> Action
        requires { Awaits self.old answer }
        ensures action { self.old.run.want ≡ Want.Do result }
        ensures follows { (program : Program) (code : Code) (limit : ℕ) (term : Term) (answers : List Answer) → Follows program code limit term answers self.old → Allows program result answer
            → Follows program code limit term (answers ++ answer ∷ []) self.new }
    {
        typed_terms_go_on();
        answer_run(&mut self.run, answer)
    }
}
