ghost use Rattle.std.specs.Prelude.{◌≡◌, ◌≢◌, ◌∷◌, [], ◌≤◌, ◌<◌, ℕ, List, IfOk, OnOk, OnErr, IsSome, is_some, Some, None, Ok, Err, true, false};
ghost use Rattle.std.specs.Option.{option_copied};
ghost use Rattle.bj_core.specs.declared.action.Action.TheVariants.{End};
ghost use Rattle.bj_core.specs.declared.action.Answer.{Answer as AnswerOf};
ghost use Rattle.bj_core.specs.declared.action.Done.{Done as DoneOf};
ghost use Rattle.bj_core.specs.declared.frame.Term.{Term};
ghost use Rattle.bj_eval.specs.Typed.{IsTyped};
ghost use Rattle.bj_code.specs.ProgramCode.{program_code};
ghost use Rattle.bj_exec.specs.Follows.{Follows, IsOn};
ghost use Rattle.bj_machine.specs.World.{World, is_enabled, next_action};
ghost use Rattle.bj_machine.specs.Shown.{Stands, IsFresh, IsReady, IsSettled, HasMoved, HasBegun, HasFields, HasNoted, IsSame, Steps, Finishes, setting_of, end_in, end_of, enabled_list, rests, rests_main, can_step, asks_no_memory};

use crate::Log;
use crate::acting::{MAIN, act_on, end_on, keep};
use crate::beginning::start;
use crate::dropped::{dismiss, forsake};
use crate::laws::{answers_are_allowed, stores_know_what_lives};
use bj_code::Code;
use bj_core::{Action, Done, Entry, Limits, NoMemory, Program, Term};
use bj_exec::{Thread, Want};
use bj_store::{Store, ends_are_answered, new_stores_are_kept};
use std::alloc::Global;
use std::marker::Model;

mod reset;

/// For how many entries more `reserve` makes room.
const RESERVED: usize = 32;

/// What a step did.
#[derive(Clone, Copy, Debug, PartialEq, Eq)]
pub enum Step {
    /// The thread's next action, which is the entry at this place of the log, from 1.
    Acted { thread: u32, place: u64 },
    /// An instruction of the thread that asks for nothing.
    Moved { thread: u32 },
    /// Nothing: no thread is enabled.
    Idle,
    /// Nothing: as many actions as the limit were done.
    Spent { count: u64 },
    /// Nothing, for want of memory.
    NoMemory,
}

/// Why a term does not begin.
#[derive(Clone, Copy, Debug, PartialEq, Eq)]
pub enum BeginFault {
    /// The main thread has not ended its term.
    Busy,
    /// Want of memory.
    NoMemory,
}

/// The machine.
#[derive(Drop)]
pub struct Machine {
    program: Program,
    code: Code,
    limits: Limits,
    store: Store,
    log: Log,
    main: Option<Thread>,
    acts: u64,
    alloc: Global,
}

impl Model for Machine {
    ghost use Rattle.bj_machine.specs.Shown.{Shown};
    ghost use Rattle.bj_core.specs.contracts.tree.Expr as expr;
    ghost use Rattle.bj_core.specs.contracts.tree.Stmt as stmt;
    ghost use Rattle.std.specs.Coded.{codes};

    ghost Value = { Shown };

    ghost coded = { Prim.hlevel (codes, expr.the_row.coded, stmt.the_row.coded) };

    ghost use Rattle.bj_machine.specs.Shown.{IsSound};

    ghost view = { λ m. record { program = m.program; code = m.code; limits = m.limits; store = m.store; log = m.log; main = m.main; acts = m.acts } };

    ghost invariant = { λ m. IsSound (record { program = m.program; code = m.code; limits = m.limits; store = m.store; log = m.log; main = m.main; acts = m.acts }) };
}

/// How a term is over by an action, where that is its end.
fn end_in(action: &Action) -> Option<Done>
    ensures { result ≡ end_in (Some action.now) }
{
    match action {
        Action::End { done } => Some(*done),
        _ => None,
    }
}

/// The thread does its instructions that ask for nothing, up to its next action.
fn settle_thread(
    alloc: Global,
    thread: &mut Thread,
    program: &Program,
    code: &Code,
) -> Result<(), NoMemory>
    requires { IsOn program.now code.now thread.old }
    ensures follows { (limit : ℕ) (term : Term) (answers : List AnswerOf) → Follows program.now code.now limit term answers thread.old → Follows program.now code.now limit term answers thread.new }
    ensures settled { OnOk result (rests thread.new.run.want ≡ true) }
{
    'moves: loop {
        match thread.want() {
            Want::Move => {}
            Want::Do(_) => return Ok(()),
            Want::Over(_) => return Ok(()),
        }
        match thread.advance(alloc, program, code) {
            Ok(()) => {}
            Err(_) => return Err(NoMemory),
        }
    }
}

impl Machine {
    /// A machine whose main thread has no term. The code is that of the program, and a thread may have at least two frames.
    /// No field is of type `void`, so that each has a default value.
    ///
    /// # Errors
    ///
    /// `NoMemory` where there is no room for its store.
    pub fn new(
        alloc: Global,
        program: Program,
        code: Code,
        limits: Limits,
    ) -> Result<Machine, NoMemory>
        requires frames { 2 ≤ limits.frames }
        requires code { code ≡ program_code program }
        requires fields { HasFields program }
        ensures { IfOk result (λ m. IsFresh program limits m) }
    {
        new_stores_are_kept();
        match Store::new(alloc, &program, limits) {
            Ok(store) => Ok(Machine {
                program,
                code,
                limits,
                store,
                log: Log::new(alloc),
                main: None,
                acts: 0,
                alloc,
            }),
            Err(_) => {
                forsake(program, code);
                Err(NoMemory)
            }
        }
    }

    /// The program.
    pub fn program(&self) -> &Program
        ensures { result.now ≡ self.now.program }
    {
        &self.program
    }

    /// The state that all threads share.
    pub fn store(&self) -> &Store
        ensures { result.now ≡ self.now.store }
    {
        &self.store
    }

    /// The living thread of a number: the main thread is 1, while it has a term.
    pub fn thread(&self, thread: u32) -> Option<&Thread>
        ensures main { thread ≡ 1 → option_copied result ≡ self.now.main }
        ensures other { thread ≢ 1 → result ≡ None }
    {
        if thread == MAIN {
            self.main.as_ref()
        } else {
            None
        }
    }

    /// The log.
    pub fn log(&self) -> &Log
        ensures { result.now ≡ self.now.log }
    {
        &self.log
    }

    /// The log, where the machine is done with.
    pub fn into_log(self) -> Log
        ensures { result ≡ self.log }
    {
        let Machine {
            program: _,
            code: _,
            limits: _,
            store: _,
            log,
            main: _,
            acts: _,
            alloc: _,
        } = self;
        log
    }

    /// Whether the main thread has not ended its term.
    pub fn is_busy(&self) -> bool
        ensures { (w : World) → Stands self.now w → result ≡ is_some w.main }
    {
        self.main.is_some()
    }

    /// Whether as many actions as the limit were done.
    pub fn is_spent(&self) -> bool
        ensures spent { result ≡ true → self.now.limits.acts ≤ self.now.acts }
        ensures left { result ≡ false → self.now.acts < self.now.limits.acts }
    {
        self.acts == self.limits.acts
    }

    /// Whether the main thread wants an instruction, or an action that is not blocked.
    fn can_step(&self) -> bool
        ensures can { result ≡ can_step self.now self.now.main }
        ensures settled { IsSettled self.now → (w : World) → Stands self.now w → result ≡ is_enabled (setting_of self.now) w }
    {
        ends_are_answered();
        match &self.main {
            None => false,
            Some(thread) => match thread.want() {
                Want::Move => true,
                Want::Do(action) => self.store.blocked(MAIN, action).is_none(),
                Want::Over(_) => true,
            },
        }
    }

    /// The numbers of the threads that are enabled, ascending. Takes no memory.
    pub fn enabled(&self) -> &[u32]
        ensures moving { rests_main self.now.main ≡ false → result.now ≡ 1 ∷ [] }
        ensures settled { IsSettled self.now → (w : World) → Stands self.now w → result.now ≡ enabled_list (is_enabled (setting_of self.now) w) }
    {
        if self.can_step() { &[1] } else { &[] }
    }

    /// How the main thread's term is over, where its end is its next action.
    pub fn end(&self) -> Option<Done>
        ensures end { result ≡ end_of self.now.main }
        ensures next { (done : DoneOf) → result ≡ Some done → (w : World) → Stands self.now w → next_action (setting_of self.now) w ≡ Some (End done) }
    {
        match &self.main {
            None => None,
            Some(thread) => match thread.want() {
                Want::Move => None,
                Want::Do(action) => end_in(action),
                Want::Over(done) => Some(*done),
            },
        }
    }

    /// A thread that is about to begin with a term, which changes nothing yet.
    ///
    /// # Errors
    ///
    /// `NoMemory` where there is no room for its code or its frame.
    pub fn prepare(&self, term: Term) -> Result<Thread, NoMemory>
        requires { IsTyped self.now.program term }
        ensures { IfOk result (λ thread. IsReady self.now term thread) }
    {
        start(self.alloc, &self.program, self.limits.frames, term)
    }

    /// The main thread begins with a term for which a thread was prepared. Takes no memory.
    pub fn begin_with(&mut self, thread: Thread)
        requires { (term : Term) × IsReady self.old term thread }
        ensures { (term : Term) → IsReady self.old term thread → HasBegun self.old self.new term }
    {
        stores_know_what_lives();
        self.store.begin();
        dismiss(std::mem::replace(&mut self.main, Some(thread)));
    }

    /// The main thread begins with a term.
    ///
    /// # Errors
    ///
    /// `Busy` exactly where the main thread has not ended its term; `NoMemory`. Both leave the machine as it was.
    pub fn begin(&mut self, term: Term) -> Result<(), BeginFault>
        requires { IsTyped self.old.program term }
        ensures begun { OnOk result (HasBegun self.old self.new term) }
        ensures free { OnOk result (self.old.main ≡ None) }
        ensures busy { result ≡ Err BeginFault.Busy → IsSome self.old.main }
        ensures err { OnErr result (self.new ≡ self.old) }
    {
        if self.main.is_some() {
            return Err(BeginFault::Busy);
        }
        match self.prepare(term) {
            Ok(thread) => {
                self.begin_with(thread);
                Ok(())
            }
            Err(NoMemory) => Err(BeginFault::NoMemory),
        }
    }

    /// Makes room in the log for at least 32 entries more.
    ///
    /// # Errors
    ///
    /// `NoMemory`, which does not come where there was room; the machine is then as before.
    pub fn reserve(&mut self) -> Result<(), NoMemory>
        ensures room { OnOk result (32 ≤ self.new.log.room) }
        ensures same { IsSame self.old self.new }
        ensures enough { 32 ≤ self.old.log.room → result ≡ Ok tt }
    {
        self.log.reserve(RESERVED)
    }

    /// Adds an entry to the log that is no act, which changes no thread.
    ///
    /// # Errors
    ///
    /// `NoMemory`, which does not come where the log has room; the machine is then as before.
    pub fn note(&mut self, entry: Entry) -> Result<(), NoMemory>
        ensures ok { OnOk result (HasNoted entry self.old self.new) }
        ensures err { OnErr result (IsSame self.old self.new) }
        ensures enough { 0 < self.old.log.room → result ≡ Ok tt }
    {
        self.log.push(entry, None)
    }

    /// The main thread does its instructions that ask for nothing, up to its next action. The log stays.
    ///
    /// # Errors
    ///
    /// `NoMemory`, with a part of them done.
    pub fn settle(&mut self) -> Result<(), NoMemory>
        ensures moved { HasMoved self.old self.new }
        ensures settled { OnOk result (IsSettled self.new) }
    {
        match &mut self.main {
            None => Ok(()),
            Some(thread) => settle_thread(self.alloc, thread, &self.program, &self.code),
        }
    }

    /// One instruction of the main thread, which is enabled.
    fn instruct(&mut self) -> Step
        requires enabled { can_step self.old self.old.main ≡ true }
        requires left { self.old.acts < self.old.limits.acts }
        ensures steps { Steps result self.old self.new }
        ensures free { 0 < self.old.log.room → asks_no_memory self.old.main ≡ true → result ≢ Step.NoMemory }
    {
        match self.end() {
            Some(done) => self.finish(done),
            None => self.go_on(),
        }
    }

    /// One instruction of the main thread, or its next action, which is no end.
    fn go_on(&mut self) -> Step
        requires goes { end_of self.old.main ≡ None }
        requires enabled { can_step self.old self.old.main ≡ true }
        requires left { self.old.acts < self.old.limits.acts }
        ensures steps { Steps result self.old self.new }
        ensures free { 0 < self.old.log.room → asks_no_memory self.old.main ≡ true → result ≢ Step.NoMemory }
    {
        answers_are_allowed();
        stores_know_what_lives();
        let Some(thread) = &mut self.main else {
            unreachable!()
        };
        match thread.want() {
            Want::Move => match thread.advance(self.alloc, &self.program, &self.code) {
                Ok(()) => Step::Moved { thread: MAIN },
                Err(_) => Step::NoMemory,
            },
            Want::Do(action) => {
                let answer = match act_on(&mut self.store, &mut self.log, &self.program, action) {
                    Ok(answer) => answer,
                    Err(_) => return Step::NoMemory,
                };
                let answered = thread.answer(answer);
                keep(&mut self.log, answer, answered);
                self.acts += 1;
                Step::Acted {
                    thread: MAIN,
                    place: self.log.len(),
                }
            }
            Want::Over(_) => unreachable!(),
        }
    }

    /// The end of the main thread's term.
    fn finish(&mut self, done: Done) -> Step
        requires ends { Finishes self.old }
        requires done { end_of self.old.main ≡ Some done }
        requires left { self.old.acts < self.old.limits.acts }
        ensures steps { Steps result self.old self.new }
        ensures free { 0 < self.old.log.room → asks_no_memory self.old.main ≡ true → result ≢ Step.NoMemory }
    {
        ends_are_answered();
        stores_know_what_lives();
        match end_on(&mut self.store, &mut self.log, &self.program, done) {
            Ok(_) => {}
            Err(_) => return Step::NoMemory,
        }
        dismiss(std::mem::replace(&mut self.main, None));
        self.acts += 1;
        Step::Acted {
            thread: MAIN,
            place: self.log.len(),
        }
    }

    /// One instruction of the main thread. Its next action takes no memory where the log has room, unless it is one of those
    /// to which the store answers with a new object.
    pub fn step(&mut self) -> Step
        ensures steps { Steps result self.old self.new }
        ensures free { 0 < self.old.log.room → asks_no_memory self.old.main ≡ true → result ≢ Step.NoMemory }
    {
        if !self.can_step() {
            return Step::Idle;
        }
        if self.acts == self.limits.acts {
            return Step::Spent { count: self.acts };
        }
        self.instruct()
    }
}
