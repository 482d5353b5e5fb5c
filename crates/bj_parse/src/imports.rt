ghost use Rattle.std.specs.Prelude.{◌≡◌, [], ◌∷◌, ◌++◌};
ghost use Rattle.bj_grammar.specs.Given.{text_of, place_of};
ghost use Rattle.bj_class.specs.Reading as reading;
ghost use Rattle.bj_parse.specs.Checked as spec;
ghost use Rattle.bj_parse.specs.Checked.{GivesChecked};
ghost use Rattle.bj_parse.specs.Parts as parts;

use crate::Halt;
use bj_base::Seq;
use bj_class::import_at;
use bj_expr::Bounds;
use bj_grammar::{Stop, Symbol, Terminal, out_of_turns, sees};
use bj_rules::import_misfit;
use bj_tree::{ImportTree, ImportTrees};
use std::alloc::Global;

/// Lets an import go. Its drop stands here alone, so that no caller's proof goes through it.
fn let_import_go(_import: ImportTree) {}

/// An import, unless it is not as the profile asks.
fn checked_import(
    alloc: Global,
    tokens: &[Symbol],
    bounds: Bounds,
    at: usize,
) -> Result<(ImportTree, usize), Halt>
    ensures { GivesChecked result (parts.one_import tokens.now bounds at) }
{
    match import_at(alloc, tokens, bounds, at) {
        Ok((import, end)) => match import_misfit(&import) {
            Some(misfit) => {
                let_import_go(import);
                Err(Halt::Unfit(misfit))
            }
            None => Ok((import, end)),
        },
        Err(stop) => Err(Halt::Stopped(stop)),
    }
}

/// An import after others.
fn next_import(
    alloc: Global,
    tokens: &[Symbol],
    bounds: Bounds,
    mut found: ImportTrees,
    at: usize,
) -> Result<(ImportTrees, usize), Halt>
    ensures { GivesChecked result (parts.next_import tokens.now bounds found at) }
{
    let (import, end) = checked_import(alloc, tokens, bounds, at)?;
    match found.push(import) {
        Ok(()) => Ok((found, end)),
        Err(_) => Err(Halt::Stopped(Stop::Memory)),
    }
}

/// The imports of a file [JLS 7.5], each as the profile asks, and the place after them.
///
/// # Errors
///
/// - `Unfit` with the first that is not.
/// - `Stopped` where the grammar takes no further token, or there is no room for them.
pub fn imports_from(
    alloc: Global,
    tokens: &[Symbol],
    bounds: Bounds,
) -> Result<(ImportTrees, usize), Halt>
    ensures { GivesChecked result (parts.imports_of tokens.now bounds bounds.most [] 0) }
{
    let mut found = Seq::new(alloc);
    let mut at = 0;
    for _turn in 0..bounds.most {
        if !sees(tokens, at, Terminal::Import) {
            return Ok((found, at));
        }
        (found, at) = next_import(alloc, tokens, bounds, found, at)?;
    }
    if sees(tokens, at, Terminal::Import) {
        return Err(Halt::Stopped(out_of_turns()));
    }
    Ok((found, at))
}
