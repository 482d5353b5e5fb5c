ghost use Rattle.std.specs.Prelude.{◌≡◌, ◌<◌, ◌⊎◌, [], IfOk, IfErr, Err, Ok, if◌then◌else◌, length};
ghost use Rattle.bj_base.specs.declared.fault.FaultCode.TheVariants.{Syntax};
ghost use Rattle.bj_base.specs.declared.fault.Refusal.TheVariants as refusals;
ghost use Rattle.bj_lex.specs.Texts.{ReadsAs};
ghost use Rattle.bj_line.specs.Line.{IsLine};
ghost use Rattle.bj_reading.specs.Reply as spec;

use crate::JavaText;
use crate::parsed::{first_place, parsed};
use crate::word::code_word;
use bj_base::{Bytes, Fault, FaultCode, Name, NoMemory, Refusal, Seq, Span};
use bj_lex::{Tokens, tokens};
use bj_line::line_of;
use bj_tree::{ExprTree, LineTree};
use std::alloc::Global;

/// The reply that tells a fault.
fn fault_reply(alloc: Global, at: Span, code: FaultCode) -> Result<Bytes, NoMemory>
    ensures { IfOk result (λ reply. reply ≡ spec.fault_reply at code) }
{
    let word = code_word(code);
    let text = format!(in alloc; "= fault {}:{} {word}", at.line, at.column)?;
    Seq::from_slice(alloc, text.as_bytes())
}

/// The reply to what can be read and is not built.
fn not_built(alloc: Global) -> Result<Bytes, NoMemory>
    ensures { IfOk result (λ reply. reply ≡ spec.not_built) }
{
    Seq::from_slice(alloc, b"= not built".as_slice())
}

/// Whether an expression is a call of a method.
fn is_call(tree: &ExprTree) -> bool
    ensures { result ≡ spec.is_call tree.now }
{
    matches!(
        tree,
        ExprTree::Call { .. } | ExprTree::MethodCall { .. } | ExprTree::SuperCall { .. }
    )
}

/// Whether an expression is a creation of an object.
fn is_creation(tree: &ExprTree) -> bool
    ensures { result ≡ spec.is_creation tree.now }
{
    matches!(tree, ExprTree::New { .. })
}

/// Whether a line may stand at a place of Java texts.
fn is_of_form(form: JavaText, tree: &LineTree) -> bool
    ensures { result ≡ spec.is_of_form form tree.now }
{
    match (form, tree) {
        (JavaText::Line, _) => true,
        (JavaText::Call, LineTree::Expr(tree)) => is_call(tree.get()),
        (JavaText::Creation, LineTree::Expr(tree)) => is_creation(tree.get()),
        (_, LineTree::Stmts(_)) => false,
    }
}

/// Lets a tree go. Its drop stands here alone, so that no caller's proof goes through it.
fn let_go(_tree: LineTree) {}

/// The reply to a line that was read, whose text's first token stands at a place.
fn tree_reply(alloc: Global, form: JavaText, first: Span, tree: LineTree) -> Result<Bytes, NoMemory>
    ensures { IfOk result
        (λ reply. reply ≡ (if spec.is_of_form form tree then spec.not_built else spec.fault_reply first Syntax)) }
{
    let fits = is_of_form(form, &tree);
    let_go(tree);
    if fits {
        return not_built(alloc);
    }
    fault_reply(alloc, first, FaultCode::Syntax)
}

/// The reply to a text that has tokens.
fn tokens_reply(alloc: Global, form: JavaText, read: Tokens) -> Result<Bytes, NoMemory>
    ensures { IfOk result (λ reply. spec.IsParserReply form read reply ⊎ spec.IsTreeReply form read reply) }
{
    let first = first_place(&read);
    let tokens = parsed(alloc, form, read)?;
    match line_of(alloc, &tokens) {
        Ok(tree) => tree_reply(alloc, form, first, tree),
        Err(Refusal::Fault(fault)) => fault_reply(alloc, fault.at, fault.code),
        Err(Refusal::NoMemory) => Err(NoMemory),
    }
}

/// What is replied to the Java text of a console line: `= fault l:c code` at its first fault, and `= not built` where it can be read.
/// What stands behind `call` and is no call, and what stands behind `new x` and is no creation, has the fault `Syntax` at its first token.
/// Lines and columns count from the first character of the text.
///
/// # Errors
///
/// `NoMemory` where there is no room for the tokens, the tree or the reply.
pub fn reading_reply(alloc: Global, form: JavaText, text: &[u8]) -> Result<Bytes, NoMemory>
    requires { length text.now < 4294967295 }
    ensures { IfOk result (spec.IsReadingReply form text.now) }
{
    let class = Name::from_bytes(Seq::new(alloc));
    match tokens(alloc, &class, text) {
        Ok(read) => tokens_reply(alloc, form, read),
        Err(Refusal::Fault(first)) => fault_reply(alloc, first.at, first.code),
        Err(Refusal::NoMemory) => Err(NoMemory),
    }
}
