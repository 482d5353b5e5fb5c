ghost use Rattle.std.specs.Prelude.{◌≡◌, ◌≤◌, ◌<◌, IfOk, IfErr, true, false, is_some};
ghost use Rattle.bj_core.specs.declared.entry.Entry.TheVariants as entry;
ghost use Rattle.bj_command.specs.Words.{form_in, takes_memory};
ghost use Rattle.bj_code.specs.ProgramCode.{program_code};
ghost use Rattle.bj_history.specs.History.{after, actions, loaded, setting, Fits, Legal, has_quit};
ghost use Rattle.bj_machine.specs.World.{is_enabled};
ghost use Rattle.bj_session.specs.Desk.{fresh_desk, world_of, is_last, HasNoted, HasLined, HasActed, HasFollowed, MayTake, IsDecided};

use crate::entering::enter;
use crate::naming::{bind_end, release, unbind};
use bj_bench::Bench;
use bj_code::Code;
use bj_core::{Bytes, Entry, Name, Program, Reason, Seq};
use bj_history::Opening;
use bj_io::Sink;
use bj_machine::{Log, Machine, Step};
use bj_reply::{Asked, ask};
use bj_say::{Wait, end_text, woke_text, written_text};
use bj_stream::{Sent, put_all};
use std::alloc::Global;
use std::marker::Model;

/// What an open wait comes to.
#[derive(Clone, Copy, Debug, PartialEq, Eq)]
pub enum Decision {
    /// It ends, for this reason.
    Wake(Reason),
    /// The main thread can act.
    Act,
    /// Memory was wanting.
    NoMemory,
}

/// The machine with the names on the bench, and the sink to which its history is written.
#[derive(Drop)]
pub struct Desk<K: Sink> {
    opening: Opening,
    machine: Machine,
    wait: Option<Wait>,
    /// The name that the main thread's term binds.
    binds: Option<Name>,
    bench: Bench,
    sink: K,
    alloc: Global,
}

impl<K: Sink> Model for Desk<K> {
    ghost use Rattle.bj_session.specs.Desk.{Desk as Shown};

    ghost Value = { Shown };

    ghost use Rattle.bj_session.specs.Desk.{IsKept};

    ghost view = { λ d. record { opening = d.opening; log = d.machine.log.entries; held = K.held d.sink; faults = K.faults d.sink } };

    ghost invariant = { λ d. IsKept d.opening d.machine d.wait d.binds d.bench };
}

/// Lets go what a line asked. Its drop stands here alone, so that no caller's proof goes through it.
fn let_go(_asked: Asked) {}

impl<K: Sink> Desk<K> {
    /// A desk on which nothing has happened, with a machine over the program that is loaded at the opening.
    ///
    /// # Errors
    ///
    /// The sink, where there is no room for the machine.
    pub fn new(
        alloc: Global,
        opening: Opening,
        program: Program,
        code: Code,
        sink: K,
    ) -> Result<Desk<K>, K>
        requires frames { 2 ≤ opening.limits.frames }
        requires loaded { program ≡ loaded }
        requires code { code ≡ program_code program }
        ensures ok { IfOk result (λ d. d ≡ fresh_desk opening (K.held sink) (K.faults sink)) }
        ensures err { IfErr result (λ k. k ≡ sink) }
    {
        match Machine::new(alloc, program, code, opening.limits) {
            Ok(machine) => Ok(Desk {
                opening,
                machine,
                wait: None,
                binds: None,
                bench: Bench::new(alloc),
                sink,
                alloc,
            }),
            Err(_) => Err(sink),
        }
    }

    /// Whether the command is `pad`.
    pub fn is_pad(&self) -> bool
        ensures { result ≡ self.now.opening.pad }
    {
        self.opening.pad
    }

    /// Whether with the end of the open wait all may be over.
    pub fn is_last(&self) -> bool
        ensures { result ≡ is_last self.now.opening.pad (after self.now.opening self.now.log).wait }
    {
        self.opening.pad || matches!(self.wait, Some(Wait::Silent))
    }

    /// Whether a wait is open.
    pub fn is_waiting(&self) -> bool
        ensures { result ≡ is_some (after self.now.opening self.now.log).wait }
    {
        self.wait.is_some()
    }

    /// What an open wait comes to: the machine is settled first.
    pub fn decide(&mut self) -> Decision
        ensures same { self.new ≡ self.old }
        ensures decided { IsDecided result self.old }
    {
        if self.machine.settle().is_err() {
            return Decision::NoMemory;
        }
        if !self.machine.is_busy() {
            return Decision::Wake(Reason::Idle);
        }
        if self.machine.enabled().is_empty() {
            return Decision::Wake(Reason::Stuck);
        }
        if self.machine.is_spent() {
            return Decision::Wake(Reason::Spent);
        }
        Decision::Act
    }

    /// A line, with its reply: what needs memory comes first, so that a line without memory changes nothing.
    pub fn line(&mut self, bytes: Bytes) -> Sent
        requires { MayTake self.old.opening self.old.log }
        ensures { HasLined result bytes self.old self.new }
    {
        let pad = self.opening.pad;
        let asked = match ask(
            self.alloc,
            &self.machine,
            &self.bench,
            pad,
            bytes.as_slice(),
        ) {
            Ok(asked) => asked,
            Err(_) => return self.refuse(bytes),
        };
        let text = match written_text(self.alloc, &asked.reply) {
            Ok(text) => text,
            Err(_) => {
                let_go(asked);
                return Sent::NoMemory;
            }
        };
        match enter(
            &mut self.machine,
            &mut self.binds,
            &mut self.wait,
            bytes,
            asked,
        ) {
            Ok(()) => {}
            Err(_) => return Sent::NoMemory,
        }
        put_all(&mut self.sink, text.as_slice())
    }

    /// A line for which memory was wanting: nothing changes but the log.
    fn refuse(&mut self, bytes: Bytes) -> Sent
        requires may { MayTake self.old.opening self.old.log }
        requires memory { takes_memory (form_in self.old.opening.pad bytes) ≡ true }
        ensures { HasLined result bytes self.old self.new }
    {
        let reply = match Seq::from_slice(self.alloc, b"= no memory".as_slice()) {
            Ok(reply) => reply,
            Err(_) => return Sent::NoMemory,
        };
        let text = match written_text(self.alloc, &reply) {
            Ok(text) => text,
            Err(_) => return Sent::NoMemory,
        };
        match self.machine.note(Entry::Line { bytes, reply }) {
            Ok(()) => {}
            Err(_) => return Sent::NoMemory,
        }
        put_all(&mut self.sink, text.as_slice())
    }

    /// What follows a line: in `pad` the silent wait, in `bench` the first act, where one can be done.
    pub fn follow(&mut self) -> Sent
        requires goes_on { has_quit self.old.log ≡ false }
        requires due { self.old.opening.pad ≡ true → Fits self.old.opening self.old.log entry.Pause }
        ensures { HasFollowed self.old.opening.pad result self.old self.new }
    {
        if self.opening.pad {
            self.pause()
        } else {
            self.turn()
        }
    }

    /// The first act behind a line, where one can be done.
    fn turn(&mut self) -> Sent
        requires goes_on { has_quit self.old.log ≡ false }
        ensures { HasFollowed false result self.old self.new }
    {
        match self.decide() {
            Decision::Act => self.act(),
            Decision::Wake(_) => Sent::All,
            Decision::NoMemory => Sent::NoMemory,
        }
    }

    /// The silent wait: in `pad` behind a line, in `bench` at the end of the input.
    pub fn pause(&mut self) -> Sent
        requires { Fits self.old.opening self.old.log entry.Pause }
        ensures { HasNoted result entry.Pause self.old self.new }
    {
        match self.machine.note(Entry::Pause) {
            Ok(()) => {}
            Err(_) => return Sent::NoMemory,
        }
        self.wait = Some(Wait::Silent);
        Sent::All
    }

    /// The end of the open wait, with its event.
    pub fn wake(&mut self, reason: Reason) -> Sent
        requires { Fits self.old.opening self.old.log (entry.Woke reason) }
        ensures { HasNoted result (entry.Woke reason) self.old self.new }
    {
        let text = match woke_text(self.alloc, self.wait, reason) {
            Ok(text) => text,
            Err(_) => return Sent::NoMemory,
        };
        match self.machine.note(Entry::Woke { reason }) {
            Ok(()) => {}
            Err(_) => return Sent::NoMemory,
        }
        self.wait = None;
        put_all(&mut self.sink, text.as_slice())
    }

    /// The main thread's next action: where it ends a term that binds a name, the name is bound.
    pub fn act(&mut self) -> Sent
        requires goes_on { has_quit self.old.log ≡ false }
        requires enabled { is_enabled (setting self.old.opening) (world_of self.old) ≡ true }
        requires left { (world_of self.old).acts < self.old.opening.limits.acts }
        ensures { HasActed result self.old self.new }
    {
        match self.machine.settle() {
            Ok(()) => {}
            Err(_) => return Sent::NoMemory,
        }
        let end = self.machine.end();
        let text = match end_text(self.alloc, self.machine.program(), &self.binds, end) {
            Ok(text) => text,
            Err(_) => return Sent::NoMemory,
        };
        let bound = match bind_end(self.alloc, &mut self.bench, &self.binds, end) {
            Ok(bound) => bound,
            Err(_) => return Sent::NoMemory,
        };
        match self.machine.step() {
            Step::Acted { .. } => {
                release(&mut self.binds, end);
                put_all(&mut self.sink, text.as_slice())
            }
            Step::Moved { .. } => unreachable!(),
            Step::Idle => unreachable!(),
            Step::Spent { .. } => unreachable!(),
            Step::NoMemory => {
                unbind(&mut self.bench, bound);
                Sent::NoMemory
            }
        }
    }

    /// The log and the sink, where the desk is done with.
    pub fn into_parts(self) -> (Log, K)
        ensures log { result.0.entries ≡ self.log }
        ensures actions { result.0.actions ≡ actions self.opening self.log }
        ensures legal { Legal self.opening self.log }
        ensures held { K.held result.1 ≡ self.held }
        ensures faults { K.faults result.1 ≡ self.faults }
    {
        let Desk {
            opening: _,
            machine,
            wait: _,
            binds: _,
            bench: _,
            sink,
            alloc: _,
        } = self;
        (machine.into_log(), sink)
    }
}
