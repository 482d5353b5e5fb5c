ghost use Rattle.std.specs.Prelude.{◌≡◌};
ghost use Rattle.bj_grammar.specs.Given.{text_of, place_of};
ghost use Rattle.bj_class.specs.Grammar as grammar;
ghost use Rattle.bj_parse.specs.Checked as spec;
ghost use Rattle.bj_parse.specs.Checked.{GivesChecked};
ghost use Rattle.bj_parse.specs.Parts as parts;

use crate::Halt;
use crate::imports::imports_from;
use crate::marks::early_head;
use crate::members::members_from;
use bj_base::{Copies, Name, Span};
use bj_class::{ClassHead, head_at};
use bj_expr::Bounds;
use bj_grammar::{Stop, Symbol, Terminal, place, word};
use bj_rules::head_misfit;
use bj_tree::{ClassTree, ImportTrees, MemberTrees};
use std::alloc::Global;

/// Lets imports go. Their drop stands here alone, so that no caller's proof goes through it.
fn let_imports_go(_imports: ImportTrees) {}

/// Lets members go, like `let_imports_go`.
fn let_members_go(_members: MemberTrees) {}

/// Lets what stands before members go, like `let_imports_go`.
fn let_head_go(_head: ClassHead) {}

/// Why what stands before the members is not taken that the grammar stops: a misfit of its annotations and modifiers, or else the stop.
fn head_stop(alloc: Global, tokens: &[Symbol], bounds: Bounds, start: usize, stop: usize) -> Halt
    ensures { parts.IsHeadStop tokens.now bounds start stop result }
{
    match early_head(alloc, tokens, bounds, start, stop) {
        Ok(Some(misfit)) => Halt::Unfit(misfit),
        Ok(None) => Halt::Stopped(Stop::Syntax(stop)),
        Err(_) => Halt::Stopped(Stop::Memory),
    }
}

/// What stands before the members, unless it is not as the profile asks.
fn checked_head(
    alloc: Global,
    tokens: &[Symbol],
    bounds: Bounds,
    at: usize,
) -> Result<(ClassHead, usize), Halt>
    ensures { GivesChecked result (parts.one_head tokens.now bounds at) }
{
    match head_at(alloc, tokens, bounds, at) {
        Ok((head, end)) => {
            let misfit = head_misfit(
                head.annotations.as_slice(),
                head.modifiers.as_slice(),
                head.kind,
            );
            match misfit {
                Some(misfit) => {
                    let_head_go(head);
                    Err(Halt::Unfit(misfit))
                }
                None => Ok((head, end)),
            }
        }
        Err(Stop::Syntax(stop)) => Err(head_stop(alloc, tokens, bounds, at, stop)),
        Err(stop) => Err(Halt::Stopped(stop)),
    }
}

/// The tree of a file from its parts.
fn class_tree(
    file: Name,
    imports: ImportTrees,
    head: ClassHead,
    members: MemberTrees,
    end: Span,
) -> ClassTree
    ensures { result ≡ grammar.class_tree file imports head members end }
{
    ClassTree {
        file,
        imports,
        at: head.at,
        annotations: head.annotations,
        modifiers: head.modifiers,
        kind: head.kind,
        name: head.name,
        superclass: head.superclass,
        superinterfaces: head.superinterfaces,
        members,
        end,
    }
}

/// The closing brace of a class, behind all its members.
fn closed(
    alloc: Global,
    class: &Name,
    tokens: &[Symbol],
    imports: ImportTrees,
    head: ClassHead,
    members: MemberTrees,
    at: usize,
) -> Result<(ClassTree, usize), Halt>
    ensures { GivesChecked result (parts.closing tokens.now class.now imports head members at) }
{
    match word(tokens, at, Terminal::RightBrace) {
        Ok(end) => match class.copy(alloc) {
            Ok(file) => {
                let tree = class_tree(file, imports, head, members, place(tokens, at));
                Ok((tree, end))
            }
            Err(_) => {
                let_imports_go(imports);
                let_head_go(head);
                let_members_go(members);
                Err(Halt::Stopped(Stop::Memory))
            }
        },
        Err(stop) => {
            let_imports_go(imports);
            let_head_go(head);
            let_members_go(members);
            Err(Halt::Stopped(stop))
        }
    }
}

/// The members of a class and its closing brace.
fn behind_head(
    alloc: Global,
    class: &Name,
    tokens: &[Symbol],
    bounds: Bounds,
    imports: ImportTrees,
    head: ClassHead,
    at: usize,
) -> Result<(ClassTree, usize), Halt>
    ensures { GivesChecked result (parts.body_of tokens.now bounds class.now imports head at) }
{
    match members_from(alloc, tokens, bounds, &head, at) {
        Ok((members, end)) => closed(alloc, class, tokens, imports, head, members, end),
        Err(halt) => {
            let_imports_go(imports);
            let_head_go(head);
            Err(halt)
        }
    }
}

/// A class behind the imports of its file.
fn behind_imports(
    alloc: Global,
    class: &Name,
    tokens: &[Symbol],
    bounds: Bounds,
    imports: ImportTrees,
    at: usize,
) -> Result<(ClassTree, usize), Halt>
    ensures { GivesChecked result (parts.class_behind tokens.now bounds class.now imports at) }
{
    match checked_head(alloc, tokens, bounds, at) {
        Ok((head, end)) => behind_head(alloc, class, tokens, bounds, imports, head, end),
        Err(halt) => {
            let_imports_go(imports);
            Err(halt)
        }
    }
}

/// A file with its class [JLS 7.3], each part of which is as the profile asks, and the place after its last token.
///
/// # Errors
///
/// - `Unfit` with the first part that is not.
/// - `Stopped` where the grammar takes no further token, where a body or an initializer is too deep, or there is no room for the tree.
#[tactic(auto, unfolding(crate::specs::Checked::checked_file))]
pub fn file_from(
    alloc: Global,
    class: &Name,
    tokens: &[Symbol],
    bounds: Bounds,
) -> Result<(ClassTree, usize), Halt>
    ensures { GivesChecked result (spec.checked_file (place_of tokens.now) bounds.most bounds.room class.now (text_of tokens.now)) }
{
    let (imports, at) = imports_from(alloc, tokens, bounds)?;
    behind_imports(alloc, class, tokens, bounds, imports, at)
}
