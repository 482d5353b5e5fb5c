ghost use Rattle.std.specs.Prelude.{◌≡◌, ◌<◌, ◌++◌, [], IfOk, codes, decimal, length};
ghost use Rattle.bj_eval.specs.Typed.{IsTyped};
ghost use Rattle.bj_bench.specs.Names.{binds};
ghost use Rattle.bj_history.specs.Replies.{says as spec_says, reads as spec_reads, starts as spec_starts, opens as spec_opens, if_free};
ghost use Rattle.bj_machine.specs.Shown.{Shown};
ghost use Rattle.bj_reply.specs.Asking.{IsAsked, IsForAny};

use crate::asking::Asked;
use crate::terms::name_bound;
use bj_core::{Bytes, Name, NoMemory, Term, TermKind};
use bj_machine::Machine;
use bj_reading::{JavaText, reading_reply};
use bj_say::Wait;
use std::alloc::Global;

/// A reply, with which nothing begins. Takes no memory.
pub fn replied(reply: Bytes) -> Asked
    ensures { (m : Shown) → IsAsked m (spec_says reply) result }
{
    Asked {
        reply,
        thread: None,
        binds: None,
        wait: None,
    }
}

/// Nothing. Takes no memory.
pub fn nothing(alloc: Global) -> Asked
    ensures { (m : Shown) → IsAsked m (spec_says []) result }
{
    replied(Bytes::new(alloc))
}

/// A wait, which no reply announces. Takes no memory.
pub fn opens(alloc: Global, wait: Wait) -> Asked
    ensures { (m : Shown) → IsAsked m (spec_opens wait) result }
{
    Asked {
        reply: Bytes::new(alloc),
        thread: None,
        binds: None,
        wait: Some(wait),
    }
}

/// A reply that is a text.
///
/// # Errors
///
/// `NoMemory` where there is no room for it.
pub fn says(alloc: Global, text: &[u8]) -> Result<Asked, NoMemory>
    ensures { IfOk result (λ asked. (m : Shown) → IsAsked m (spec_says text.now) asked) }
{
    Ok(replied(Bytes::from_slice(alloc, text)?))
}

/// A reply that ends with a name.
///
/// # Errors
///
/// `NoMemory` where there is no room for it.
pub fn says_of(alloc: Global, words: &[u8], name: &[u8]) -> Result<Asked, NoMemory>
    ensures { IfOk result (λ asked. (m : Shown) → IsAsked m (spec_says (words.now ++ name.now)) asked) }
{
    let mut reply = Bytes::from_slice(alloc, words)?;
    reply.extend(name)?;
    Ok(replied(reply))
}

/// The reply to a line whose byte at this place, from 1, does not fit.
///
/// # Errors
///
/// `NoMemory` where there is no room for it.
pub fn says_bad(alloc: Global, at: usize) -> Result<Asked, NoMemory>
    ensures { IfOk result (λ asked. (m : Shown) → IsAsked m (spec_says (codes "= bad line " ++ decimal at)) asked) }
{
    let text = format!(in alloc; "= bad line {at}")?;
    says(alloc, text.as_bytes())
}

/// What reading a text of Java comes to, with which nothing begins.
///
/// # Errors
///
/// `NoMemory` where there is no room for what is read, or for the reply.
pub fn reads(alloc: Global, form: JavaText, text: &[u8]) -> Result<Asked, NoMemory>
    requires { length text.now < 4294967295 }
    ensures { IfOk result (λ asked. (m : Shown) → IsAsked m (spec_reads form text.now) asked) }
{
    Ok(Asked {
        reply: reading_reply(alloc, form, text)?,
        thread: None,
        binds: None,
        wait: None,
    })
}

/// What reading a text of Java comes to, where no term runs.
///
/// # Errors
///
/// As `reads`.
pub fn reads_if_free(
    alloc: Global,
    machine: &Machine,
    form: JavaText,
    text: &[u8],
) -> Result<Asked, NoMemory>
    requires { length text.now < 4294967295 }
    ensures { IfOk result (IsForAny machine.now (λ s. if_free s.world (spec_reads form text.now))) }
{
    if machine.is_busy() {
        return says(alloc, b"= busy");
    }
    reads(alloc, form, text)
}

/// What is replied where a term begins, and the name that it binds.
fn announced(alloc: Global, kind: &TermKind) -> Result<(Bytes, Option<Name>), NoMemory>
    ensures { IfOk result (λ told. (told.0 ≡ codes "= started") × (told.1 ≡ binds kind.now)) }
{
    let reply = Bytes::from_slice(alloc, b"= started")?;
    let name = name_bound(alloc, kind)?;
    Ok((reply, name))
}

/// Lets a term go. Its drop stands here alone, so that no caller's proof goes through it.
fn let_go(_term: Term) {}

/// A term, which begins.
///
/// # Errors
///
/// `NoMemory` where there is no room for its thread or its reply.
pub fn starts(alloc: Global, machine: &Machine, term: Term) -> Result<Asked, NoMemory>
    requires { IsTyped machine.now.program term }
    ensures { IfOk result (IsAsked machine.now (spec_starts term)) }
{
    match announced(alloc, &term.kind) {
        Ok((reply, binds)) => Ok(Asked {
            reply,
            thread: Some(machine.prepare(term)?),
            binds,
            wait: None,
        }),
        Err(_) => {
            let_go(term);
            Err(NoMemory)
        }
    }
}

/// A term, which begins where none runs.
///
/// # Errors
///
/// `NoMemory` where there is no room for its thread or a reply.
pub fn starts_if_free(alloc: Global, machine: &Machine, term: Term) -> Result<Asked, NoMemory>
    requires { IsTyped machine.now.program term }
    ensures { IfOk result (IsForAny machine.now (λ s. if_free s.world (spec_starts term))) }
{
    if machine.is_busy() {
        let_go(term);
        return says(alloc, b"= busy");
    }
    starts(alloc, machine, term)
}
