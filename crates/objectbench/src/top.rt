ghost use Rattle.std.specs.Prelude.{◌≡◌, ◌≤◌, ◌⊎◌, [], true, false, IfErr, IfOk, IsSome};
ghost use Rattle.bj_io.specs.Told.{Rose};
ghost use Rattle.bj_session.specs.Session.{Goes, fresh_session};
ghost use Rattle.objectbench.specs.Top.{is_pad, is_bench, is_option, opening, opening_of, Ran, Refused, status_used};

use crate::loading::load;
use bj_core::{HeapLimits, Limits};
use bj_history::{Opening, acts_are_within_the_limit};
use bj_io::{Clock, Sink, Source};
use bj_machine::{Loaded, Log};
use bj_session::{Ending, Ends, Finish, Session, Turn};
use bj_stream::{Sent, put_all};
use std::alloc::Global;

/// How the program is called.
const USAGE: &str =
    "usage: objectbench bench FOLDER [--runners N] [--actions N] | check FOLDER | test FOLDER [CLASS] | demo N | pad\n";

/// Whether the words are `pad` alone.
fn is_pad(words: &[String]) -> bool
    ensures { result ≡ is_pad words.now }
{
    match words {
        [word] => word.as_bytes() == b"pad".as_slice(),
        _ => false,
    }
}

/// Whether a word begins with `-`, so that it is no folder.
fn is_option(word: &[u8]) -> bool
    ensures { result ≡ is_option word.now }
{
    match word {
        [first, ..] => *first == b'-',
        [] => false,
    }
}

/// Whether the words are `bench` and a folder.
fn is_bench(words: &[String]) -> bool
    ensures { result ≡ is_bench words.now }
{
    match words {
        [word, folder] => {
            word.as_bytes() == b"bench".as_slice() && !is_option(folder.as_bytes())
        }
        _ => false,
    }
}

/// What a session of `pad` or of `bench` begins with.
fn opening(pad: bool) -> Opening
    ensures { result ≡ opening pad }
{
    Opening {
        pad,
        limits: Limits {
            acts: 4_000_000,
            frames: 2_000,
            threads: 1_000,
            heap: HeapLimits {
                objects: 1_000_000,
                cells: 4_000_000,
            },
        },
    }
}

/// What the session begins with that the words ask for.
fn opening_of(words: &[String]) -> Option<Opening>
    ensures { result ≡ opening_of words.now }
{
    if is_pad(words) {
        return Some(opening(true));
    }
    if is_bench(words) {
        return Some(opening(false));
    }
    None
}

/// Ticks the session until it is over.
fn served<S: Source, K: Sink, C: Clock>(mut session: Session<S, K, C>) -> Session<S, K, C>
    ensures over { IsSome result.ending }
    ensures goes { Goes session result }
{
    'turns: loop {
        match session.tick() {
            Turn::Moved => {}
            Turn::Over => return session,
        }
    }
}

/// The status once the usage line was put.
fn usage_status(sent: Sent) -> u8
    ensures { result ≡ status_used sent }
{
    match sent {
        Sent::All => 2,
        Sent::Failed => 4,
        Sent::NoMemory => 5,
    }
}

/// Writes how the program is called.
fn refused<S: Source, K: Sink, C: Clock>(alloc: Global, mut ends: Ends<S, K, C>) -> Finish<S, K, C>
    ensures refused { Refused (K.held ends.sink) (K.held result.ends.sink) result.status }
    ensures sink_fault { result.status ≡ 4 → Rose (K.faults ends.sink) (K.faults result.ends.sink) }
    ensures others { (result.status ≡ 2) ⊎ (result.status ≡ 4) ⊎ (result.status ≡ 5) }
    ensures log { result.log.entries ≡ [] }
    ensures source { result.ends.source ≡ ends.source }
{
    let sent = put_all(&mut ends.sink, USAGE.as_bytes());
    Finish {
        status: usage_status(sent),
        ends,
        log: Log::new(alloc),
    }
}

/// The session that begins with this opening, over the program that is loaded.
///
/// # Errors
///
/// A run that ended for want of memory, with an empty log, and with the ends as they were.
fn open_session<S: Source, K: Sink, C: Clock>(
    alloc: Global,
    opening: Opening,
    ends: Ends<S, K, C>,
) -> Result<Session<S, K, C>, Finish<S, K, C>>
    requires open { S.ended ends.source ≡ false }
    requires frames { 2 ≤ opening.limits.frames }
    ensures ok { IfOk result (λ s. s ≡ fresh_session opening (S.left ends.source) (S.faults ends.source) (S.waits ends.source) (S.polls ends.source) (K.held ends.sink) (K.faults ends.sink)) }
    ensures err { IfErr result (λ f. (f.status ≡ 5) × (f.log.entries ≡ []) × (f.log.actions ≡ []) × (f.ends ≡ ends)) }
{
    match load(alloc) {
        Ok(Loaded { program, code }) => {
            Session::new(alloc, ends, program, code, opening.limits, opening.pad)
        }
        Err(_) => Err(Finish {
            status: Ending::NoMemory.status(),
            ends,
            log: Log::new(alloc),
        }),
    }
}

/// A session with this opening, from its beginning to its end.
pub fn serve<S: Source, K: Sink, C: Clock>(
    alloc: Global,
    opening: Opening,
    ends: Ends<S, K, C>,
) -> Finish<S, K, C>
    requires open { S.ended ends.source ≡ false }
    requires frames { 2 ≤ opening.limits.frames }
    ensures ran { Ran opening (S.left ends.source) (S.left result.ends.source) (S.polls ends.source) (S.polls result.ends.source) (S.ended result.ends.source) (K.held ends.sink) (K.held result.ends.sink) result.status result.log }
    ensures source_fault { result.status ≡ 3 → Rose (S.faults ends.source) (S.faults result.ends.source) }
    ensures sink_fault { result.status ≡ 4 → Rose (K.faults ends.sink) (K.faults result.ends.sink) }
    ensures not_yet { result.status ≡ 8 → Rose (S.waits ends.source) (S.waits result.ends.source) }
{
    acts_are_within_the_limit();
    match open_session(alloc, opening, ends) {
        Ok(session) => served(session).finish(),
        Err(finish) => finish,
    }
}

/// Does what the words ask for, on this thread alone, and returns.
///
/// The words `pad` read the source's lines as those of the codepad, the words `bench FOLDER` as those of the bench, and write
/// to the sink; the folder is not read yet. Other words write how the program is called. The status tells how it ended: 0 where
/// all is done, 2 where the words are not of the form, 3 at a fault of the source, 4 at a fault of the sink, 5 for want of memory,
/// 7 at an input of too many bytes or lines, and 8 where nothing had arrived at a poll.
pub fn run_alone<S: Source, K: Sink, C: Clock>(
    alloc: Global,
    words: &[String],
    ends: Ends<S, K, C>,
) -> Finish<S, K, C>
    requires { S.ended ends.source ≡ false }

    // One legal history, whose lines are those that were read and whose printing is what was written.
    ensures pad { is_pad words.now ≡ true → Ran (opening true) (S.left ends.source) (S.left result.ends.source) (S.polls ends.source) (S.polls result.ends.source) (S.ended result.ends.source) (K.held ends.sink) (K.held result.ends.sink) result.status result.log }
    ensures bench { is_bench words.now ≡ true → Ran (opening false) (S.left ends.source) (S.left result.ends.source) (S.polls ends.source) (S.polls result.ends.source) (S.ended result.ends.source) (K.held ends.sink) (K.held result.ends.sink) result.status result.log }
    ensures refused { is_pad words.now ≡ false → is_bench words.now ≡ false → Refused (K.held ends.sink) (K.held result.ends.sink) result.status × (result.log.entries ≡ []) × (result.ends.source ≡ ends.source) }

    // Why it ended.
    ensures usage { result.status ≡ 2 → (is_pad words.now ≡ false) × (is_bench words.now ≡ false) }
    ensures source_fault { result.status ≡ 3 → Rose (S.faults ends.source) (S.faults result.ends.source) }
    ensures sink_fault { result.status ≡ 4 → Rose (K.faults ends.sink) (K.faults result.ends.sink) }
    ensures not_yet { result.status ≡ 8 → Rose (S.waits ends.source) (S.waits result.ends.source) }
{
    match opening_of(words) {
        Some(opening) => serve(alloc, opening, ends),
        None => refused(alloc, ends),
    }
}
