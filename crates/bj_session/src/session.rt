ghost use Rattle.std.specs.Prelude.{◌≡◌, ◌<◌, ◌≤◌, true, false, Some, None, IfOk, IfErr, IsSome, []};
ghost use Rattle.bj_command.specs.Words.{is_quit};
ghost use Rattle.bj_code.specs.ProgramCode.{program_code};
ghost use Rattle.bj_history.specs.History.{after, actions, loaded, setting, Legal, Wakes};
ghost use Rattle.bj_machine.specs.World.{is_enabled};
ghost use Rattle.bj_session.specs.Desk.{world_of};
ghost use Rattle.bj_session.specs.Session.{Goes, IsSound, todo, ending_after, ending_polled, ending_lined, ending_woken, ends_at, fresh_session, HasStatus};

use crate::{Decision, Desk, Ending, Ends, Finish, Turn};
use bj_code::Code;
use bj_command::is_quit;
use bj_core::{Limits, Program, Reason};
use bj_history::Opening;
use bj_io::{Clock, Sink, Source};
use bj_machine::Log;
use bj_stream::{Polled, Reader, Sent, Taken};
use std::alloc::Global;
use std::marker::Model;

/// The session.
#[derive(Drop)]
pub struct Session<S: Source, K: Sink, C: Clock> {
    reader: Reader<S>,
    desk: Desk<K>,
    clock: C,
    ending: Option<Ending>,
}

impl<S: Source, K: Sink, C: Clock> Model for Session<S, K, C> {
    ghost use Rattle.bj_session.specs.Session.{Session as Shown};

    ghost Value = { Shown };

    ghost use Rattle.bj_session.specs.Session.{IsSound};

    ghost view = { λ s. record { reader = s.reader; desk = s.desk; ending = s.ending } };

    ghost invariant = { λ s. IsSound (record { reader = s.reader; desk = s.desk; ending = s.ending }) };
}

/// How a piece leaves the session.
fn ending_after(sent: Sent) -> Option<Ending>
    ensures { result ≡ ending_after sent }
{
    match sent {
        Sent::All => None,
        Sent::Failed => Some(Ending::SinkFault),
        Sent::NoMemory => Some(Ending::NoMemory),
    }
}

/// How a poll leaves it, where the bytes are too many, or are all taken in `pad`.
fn ending_polled(polled: Polled, long: bool, done: bool, pad: bool) -> Option<Ending>
    ensures { result ≡ ending_polled polled long done pad }
{
    match polled {
        Polled::Got if long => Some(Ending::TooLong),
        Polled::Got => None,
        Polled::NotYet => Some(Ending::NotYet),
        Polled::End if done && pad => Some(Ending::Complete),
        Polled::End => None,
        Polled::Failed => Some(Ending::SourceFault),
        Polled::NoMemory => Some(Ending::NoMemory),
    }
}

/// How a line leaves it which is `quit`, or was not sent whole.
fn ending_lined(sent: Sent) -> Option<Ending>
    ensures { result ≡ ending_lined sent }
{
    match sent {
        Sent::All => Some(Ending::Complete),
        Sent::Failed => Some(Ending::SinkFault),
        Sent::NoMemory => Some(Ending::NoMemory),
    }
}

/// Whether the session ends at a line, which may be `quit`.
fn ends_at(sent: Sent, quit: bool) -> bool
    ensures { result ≡ ends_at sent quit }
{
    match sent {
        Sent::All => quit,
        Sent::Failed => true,
        Sent::NoMemory => true,
    }
}

/// How the end of a wait leaves it, which may be the last one, where all may be read.
fn ending_woken(sent: Sent, last: bool, over: bool) -> Option<Ending>
    ensures { result ≡ ending_woken sent last over }
{
    match sent {
        Sent::All if last && over => Some(Ending::Complete),
        Sent::All => None,
        Sent::Failed => Some(Ending::SinkFault),
        Sent::NoMemory => Some(Ending::NoMemory),
    }
}

impl<S: Source, K: Sink, C: Clock> Session<S, K, C> {
    /// A session over these ends, in `pad` or in `bench`. Its machine runs the program with this code and may do as much as the
    /// limits say, of which a thread's frames are at least two. The program is the one that is loaded at an opening; the code
    /// is its own.
    ///
    /// # Errors
    ///
    /// A run that ended for want of memory, with an empty log, and with the ends as they were.
    pub fn new(
        alloc: Global,
        ends: Ends<S, K, C>,
        program: Program,
        code: Code,
        limits: Limits,
        pad: bool,
    ) -> Result<Session<S, K, C>, Finish<S, K, C>>
        requires open { S.ended ends.source ≡ false }
        requires frames { 2 ≤ limits.frames }
        requires loaded { program ≡ loaded }
        requires code { code ≡ program_code program }
        ensures ok { IfOk result (λ s. s ≡ fresh_session (record { pad = pad; limits = limits }) (S.left ends.source) (S.faults ends.source) (S.waits ends.source) (S.polls ends.source) (K.held ends.sink) (K.faults ends.sink)) }
        ensures err { IfErr result (λ f. (f.status ≡ 5) × (f.log.entries ≡ []) × (f.log.actions ≡ []) × (f.ends ≡ ends)) }
    {
        let Ends {
            source,
            sink,
            clock,
        } = ends;
        match Desk::new(alloc, Opening { pad, limits }, program, code, sink) {
            Ok(desk) => Ok(Session {
                reader: Reader::new(alloc, source),
                desk,
                clock,
                ending: None,
            }),
            Err(sink) => Err(Finish {
                status: Ending::NoMemory.status(),
                ends: Ends {
                    source,
                    sink,
                    clock,
                },
                log: Log::new(alloc),
            }),
        }
    }

    /// Polls the source once.
    fn read(&mut self)
        requires live { self.old.ending ≡ None }
        requires open { self.old.reader.ended ≡ false }
        requires closed { (after self.old.desk.opening self.old.desk.log).wait ≡ None }
        ensures goes { Goes self.old self.new }
        ensures falls { self.new.ending ≡ None → todo self.new < todo self.old }
        ensures same { self.new.desk ≡ self.old.desk }
    {
        let polled = self.reader.poll();
        let long = self.reader.is_too_long();
        let done = self.reader.is_done();
        let pad = self.desk.is_pad();
        self.ending = ending_polled(polled, long, done, pad);
    }

    /// The main thread's next action.
    fn act(&mut self)
        requires live { self.old.ending ≡ None }
        requires enabled { is_enabled (setting self.old.desk.opening) (world_of self.old.desk) ≡ true }
        requires left { (world_of self.old.desk).acts < self.old.desk.opening.limits.acts }
        ensures goes { Goes self.old self.new }
        ensures falls { self.new.ending ≡ None → todo self.new < todo self.old }
    {
        let sent = self.desk.act();
        self.ending = ending_after(sent);
    }

    /// The open wait ends.
    fn wake(&mut self, reason: Reason)
        requires live { self.old.ending ≡ None }
        requires open { IsSome (after self.old.desk.opening self.old.desk.log).wait }
        requires wakes { Wakes self.old.desk.opening (world_of self.old.desk) reason }
        ensures goes { Goes self.old self.new }
        ensures falls { self.new.ending ≡ None → todo self.new < todo self.old }
    {
        let last = self.desk.is_last();
        let sent = self.desk.wake(reason);
        let over = self.reader.is_over();
        self.ending = ending_woken(sent, last, over);
    }

    /// Memory was wanting.
    fn give_up(&mut self)
        requires live { self.old.ending ≡ None }
        ensures goes { Goes self.old self.new }
        ensures over { IsSome self.new.ending }
    {
        self.ending = Some(Ending::NoMemory);
    }

    /// Takes the next line, if there is one, and answers it.
    fn answer(&mut self) -> bool
        requires live { self.old.ending ≡ None }
        requires closed { (after self.old.desk.opening self.old.desk.log).wait ≡ None }
        ensures goes { Goes self.old self.new }
        ensures took { result ≡ true → self.new.ending ≡ None → todo self.new < todo self.old }
        ensures nothing { result ≡ false → (self.new ≡ self.old) × (self.old.reader.ended ≡ true → (self.old.desk.opening.pad ≡ false) × (self.old.reader.rest ≡ [])) }
    {
        let bytes = match self.reader.take_line() {
            Taken::Line(bytes) => bytes,
            Taken::Nothing => return false,
            Taken::NoMemory => {
                self.ending = Some(Ending::NoMemory);
                return true;
            }
        };
        let quit = is_quit(bytes.as_slice());
        let sent = self.desk.line(bytes);
        if ends_at(sent, quit) {
            self.ending = ending_lined(sent);
            return true;
        }
        let followed = self.desk.follow();
        self.ending = ending_after(followed);
        true
    }

    /// The silent wait at the end of the input of `bench`.
    fn close(&mut self)
        requires live { self.old.ending ≡ None }
        requires closed { (after self.old.desk.opening self.old.desk.log).wait ≡ None }
        requires bench { self.old.desk.opening.pad ≡ false }
        requires ended { self.old.reader.ended ≡ true }
        requires done { self.old.reader.rest ≡ [] }
        ensures goes { Goes self.old self.new }
        ensures falls { self.new.ending ≡ None → todo self.new < todo self.old }
    {
        let paused = self.desk.pause();
        self.ending = ending_after(paused);
    }

    /// What the open wait comes to: it ends, or the main thread acts.
    fn go_on(&mut self)
        requires live { self.old.ending ≡ None }
        requires open { IsSome (after self.old.desk.opening self.old.desk.log).wait }
        ensures goes { Goes self.old self.new }
        ensures falls { self.new.ending ≡ None → todo self.new < todo self.old }
    {
        match self.desk.decide() {
            Decision::Wake(reason) => self.wake(reason),
            Decision::Act => self.act(),
            Decision::NoMemory => self.give_up(),
        }
    }

    /// At most 63 actions.
    fn run(&mut self)
        ensures goes { Goes self.old self.new }
        ensures falls { self.new.ending ≡ None → (self.old.ending ≡ None) × (todo self.new ≤ todo self.old) }
    {
        for _ in 0..63 {
            if self.ending.is_some() {
                return;
            }
            match self.desk.decide() {
                Decision::Wake(_) => return,
                Decision::Act => self.act(),
                Decision::NoMemory => return self.give_up(),
            }
        }
    }

    /// The open wait goes on; or the next line is answered, for which the source is polled where none is buffered; or, behind
    /// the last line of `bench`, the silent wait opens.
    fn step(&mut self)
        requires live { self.old.ending ≡ None }
        ensures goes { Goes self.old self.new }
        ensures falls { self.new.ending ≡ None → todo self.new < todo self.old }
    {
        if self.desk.is_waiting() {
            self.go_on();
            return;
        }
        if self.answer() {
            return;
        }
        if self.reader.has_ended() {
            self.close();
            return;
        }
        self.read();
        if self.ending.is_none() {
            let _answered = self.answer();
        }
    }

    /// One turn: at most one line is answered and one piece is read, and at most 64 actions are done.
    pub fn tick(&mut self) -> Turn
        ensures goes { Goes self.old self.new }
        ensures over { result ≡ Turn.Over → IsSome self.new.ending }
        ensures moved { result ≡ Turn.Moved → todo self.new < todo self.old }
        ensures kept { IsSome self.old.ending → self.new ≡ self.old }
    {
        if self.ending.is_some() {
            return Turn::Over;
        }
        self.step();
        self.run();
        if self.ending.is_some() {
            Turn::Over
        } else {
            Turn::Moved
        }
    }

    /// What a session that is over leaves.
    pub fn finish(self) -> Finish<S, K, C>
        requires { IsSome self.ending }
        ensures status { HasStatus self.ending result.status }
        ensures log { result.log.entries ≡ self.desk.log }
        ensures actions { result.log.actions ≡ actions self.desk.opening self.desk.log }
        ensures legal { Legal self.desk.opening self.desk.log }
        ensures sound { IsSound self }
        ensures left { S.left result.ends.source ≡ self.reader.left }
        ensures source_faults { S.faults result.ends.source ≡ self.reader.faults }
        ensures waits { S.waits result.ends.source ≡ self.reader.waits }
        ensures polls { S.polls result.ends.source ≡ self.reader.polls }
        ensures ended { S.ended result.ends.source ≡ self.reader.ended }
        ensures held { K.held result.ends.sink ≡ self.desk.held }
        ensures sink_faults { K.faults result.ends.sink ≡ self.desk.faults }
    {
        let Session {
            reader,
            desk,
            clock,
            ending,
        } = self;
        let (log, sink) = desk.into_parts();
        Finish {
            status: ending.unwrap().status(),
            ends: Ends {
                source: reader.into_source(),
                sink,
                clock,
            },
            log,
        }
    }
}
