ghost use Rattle.std.specs.Prelude.{◌≡◌, [], ◌∷◌, ◌++◌};
ghost use Rattle.bj_grammar.specs.Given.{text_of, place_of};
ghost use Rattle.bj_parse.specs.Checked.{GivesChecked};
ghost use Rattle.bj_parse.specs.Parts as parts;

use crate::Halt;
use crate::marks::early_member;
use bj_base::Seq;
use bj_class::{ClassHead, member_at};
use bj_expr::Bounds;
use bj_grammar::{Stop, Symbol, Terminal, out_of_turns, sees};
use bj_rules::member_misfit;
use bj_tree::{MemberTree, MemberTrees};
use std::alloc::Global;

/// Lets a member go. Its drop stands here alone, so that no caller's proof goes through it.
fn let_member_go(_member: MemberTree) {}

/// Why a member is not taken that the grammar stops: a misfit of its annotations and modifiers, or else the stop.
fn member_stop(
    alloc: Global,
    tokens: &[Symbol],
    bounds: Bounds,
    head: &ClassHead,
    start: usize,
    stop: usize,
) -> Halt
    ensures { parts.IsMemberStop tokens.now bounds head.now start stop result }
{
    match early_member(alloc, tokens, bounds, head.kind, start, stop) {
        Ok(Some(misfit)) => Halt::Unfit(misfit),
        Ok(None) => Halt::Stopped(Stop::Syntax(stop)),
        Err(_) => Halt::Stopped(Stop::Memory),
    }
}

/// A member, unless it is not as the profile asks.
fn checked_member(
    alloc: Global,
    tokens: &[Symbol],
    bounds: Bounds,
    head: &ClassHead,
    at: usize,
) -> Result<(MemberTree, usize), Halt>
    ensures { GivesChecked result (parts.one_member tokens.now bounds head.now at) }
{
    match member_at(alloc, tokens, bounds, at) {
        Ok((member, end)) => {
            match member_misfit(head.kind, head.name.name.as_slice(), &member) {
                Some(misfit) => {
                    let_member_go(member);
                    Err(Halt::Unfit(misfit))
                }
                None => Ok((member, end)),
            }
        }
        Err(Stop::Syntax(stop)) => Err(member_stop(alloc, tokens, bounds, head, at, stop)),
        Err(stop) => Err(Halt::Stopped(stop)),
    }
}

/// A member after others.
fn next_member(
    alloc: Global,
    tokens: &[Symbol],
    bounds: Bounds,
    head: &ClassHead,
    mut found: MemberTrees,
    at: usize,
) -> Result<(MemberTrees, usize), Halt>
    ensures { GivesChecked result (parts.next_member tokens.now bounds head.now found at) }
{
    let (member, end) = checked_member(alloc, tokens, bounds, head, at)?;
    match found.push(member) {
        Ok(()) => Ok((found, end)),
        Err(_) => Err(Halt::Stopped(Stop::Memory)),
    }
}

/// The members of a class [JLS 8.1.6, 9.1.4] from a place on, each as the profile asks, and the place after them.
///
/// # Errors
///
/// - `Unfit` with the first that is not as it asks.
/// - `Stopped` where the grammar takes no further token, at a node that stands too deep, or where there is no room for them.
pub fn members_from(
    alloc: Global,
    tokens: &[Symbol],
    bounds: Bounds,
    head: &ClassHead,
    start: usize,
) -> Result<(MemberTrees, usize), Halt>
    ensures { GivesChecked result (parts.members_of tokens.now bounds head.now bounds.most [] start) }
{
    let mut found = Seq::new(alloc);
    let mut at = start;
    for _turn in 0..bounds.most {
        if sees(tokens, at, Terminal::RightBrace) {
            return Ok((found, at));
        }
        (found, at) = next_member(alloc, tokens, bounds, head, found, at)?;
    }
    if !sees(tokens, at, Terminal::RightBrace) {
        return Err(Halt::Stopped(out_of_turns()));
    }
    Ok((found, at))
}
