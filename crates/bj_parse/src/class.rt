ghost use Rattle.std.specs.Prelude.{◌≡◌, IfOk};
ghost use Rattle.bj_tree.specs.declared.class.ClassTree.{ClassTree};
ghost use Rattle.bj_grammar.specs.Reader.{Found};
ghost use Rattle.bj_parse.specs.Checked.{Reads, HaltsAs};
ghost use Rattle.bj_parse.specs.Class as spec;

use crate::Halt;
use crate::file::file_from;
use crate::left_out::member_code;
use bj_base::{FaultCode, Refusal};
use bj_expr::Bounds;
use bj_grammar::{Stop, Symbol};
use bj_line::{MOST_NODES, fault, spot, symbols_of};
use bj_token::Tokens;
use bj_tree::ClassTree;
use std::alloc::Global;

/// Lets a tree go. Its drop stands here alone, so that no caller's proof goes through it.
fn let_class_go(_tree: ClassTree) {}

/// The refusal of a file that is read no further.
fn refused(alloc: Global, tokens: &Tokens, symbols: &[Symbol], halt: Halt) -> Refusal
    requires { symbols.now ≡ tokens.now.items }
    ensures { spec.IsRefusalOf tokens.now halt result }
{
    match halt {
        Halt::Stopped(Stop::Memory) => Refusal::NoMemory,
        Halt::Stopped(Stop::Syntax(at)) => fault(
            alloc,
            tokens,
            spot(tokens, symbols, at),
            member_code(symbols, at),
        ),
        Halt::Stopped(Stop::Deep(at)) => fault(alloc, tokens, at, FaultCode::Deep),
        Halt::Unfit(misfit) => fault(alloc, tokens, misfit.at, misfit.code),
    }
}

/// The class of a file that was read up to a place: nothing may stand behind it.
fn alone(
    alloc: Global,
    tokens: &Tokens,
    symbols: &[Symbol],
    tree: ClassTree,
    at: usize,
) -> Result<ClassTree, Refusal>
    requires same { symbols.now ≡ tokens.now.items }
    requires read { spec.the_file tokens.now ≡ Reads (Found tree at) }
    ensures found { IfOk result (λ a. spec.IsClass tokens.now.class tokens.now.items a) }
    ensures only { (a : ClassTree) → spec.IsClass tokens.now.class tokens.now.items a → spec.GivesClass result a }
    ensures fault { spec.ClassFault result tokens.now }
{
    if at < symbols.len() {
        let_class_go(tree);
        return Err(fault(alloc, tokens, spot(tokens, symbols, at), FaultCode::Syntax));
    }
    Ok(tree)
}

/// The class of a file, by its symbols.
fn class_by(alloc: Global, tokens: &Tokens, symbols: &[Symbol]) -> Result<ClassTree, Refusal>
    requires { symbols.now ≡ tokens.now.items }
    ensures found { IfOk result (λ a. spec.IsClass tokens.now.class tokens.now.items a) }
    ensures only { (a : ClassTree) → spec.IsClass tokens.now.class tokens.now.items a → spec.GivesClass result a }
    ensures fault { spec.ClassFault result tokens.now }
{
    let bounds = Bounds {
        most: symbols.len() + 1,
        room: MOST_NODES,
    };
    match file_from(alloc, &tokens.class, symbols, bounds) {
        Ok((tree, at)) => alone(alloc, tokens, symbols, tree, at),
        Err(halt) => Err(refused(alloc, tokens, symbols, halt)),
    }
}

/// The tree of a file with its class or interface [JLS 7.3, 8, 9]: its imports, annotations, modifiers and members.
///
/// # Errors
///
/// The first fault. Of a member that goes wrong, or of what stands before the members, an annotation or a modifier is one that stands before that
/// place, if it fits in nothing that begins with the tokens so far:
/// - `Syntax` at the first token with which the tokens so far begin no file; the end counts as a token. At the modifier that is
///   repeated or does not fit, at the name of a method that has a body where it may have none or none where it must, and at the first
///   token of a constructor or an initializer that may not stand there.
/// - `Wide` in its place where that token is the least number of a type and stands behind no minus.
/// - `Profile` in its place where that token begins what Java has there and the profile leaves out: type arguments, a resource of a
///   `try`, a second type of a catch, a class within the class, `default` before a method. At an import of what the profile does not
///   have, at an annotation that it does not have, and at `static` on a method of an interface.
/// - `Deep` where a node has more than 200 nodes above it in its body or initializer.
/// - `Large` at the first token of a body or an initializer of more than 20,000 nodes.
/// - `NoMemory` where there is no room for the tree.
pub fn class_of(alloc: Global, tokens: &Tokens) -> Result<ClassTree, Refusal>
    // What is read is a file by the grammar, each part of which is as the profile asks, and none too deep.
    ensures found { IfOk result (λ a. spec.IsClass tokens.now.class tokens.now.items a) }
    // What is such a file is read as that tree.
    ensures only { (a : ClassTree) → spec.IsClass tokens.now.class tokens.now.items a → spec.GivesClass result a }
    // A fault is the first, or a node is too deep.
    ensures fault { spec.ClassFault result tokens.now }
{
    match symbols_of(alloc, tokens.items.as_slice()) {
        Ok(symbols) => class_by(alloc, tokens, symbols.as_slice()),
        Err(_) => Err(Refusal::NoMemory),
    }
}
