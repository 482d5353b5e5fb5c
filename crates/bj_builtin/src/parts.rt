ghost use Rattle.std.specs.Prelude.{◌≡◌, ◌∷◌, [], IfOk};
ghost use Rattle.bj_core.specs.declared.tree.Stmt.TheVariants.{Block};
ghost use Rattle.bj_builtin.specs.Builtin.{no_start as spec_no_start, spot as spec_spot};

use bj_core::{Name, Names, NoMemory, Seq, Span, Stmt};
use sqlite_items::Items;
use std::alloc::Global;

/// A place in a source.
pub fn spot(line: u32, column: u32) -> Span
    ensures { result ≡ spec_spot line column }
{
    Span { line, column }
}

/// What initializes a class where nothing is to be done: an empty block.
pub fn no_start(alloc: Global, at: Span) -> Stmt
    ensures { result ≡ spec_no_start at }
{
    Stmt::Block {
        at,
        body: Items::new(alloc),
    }
}

/// A block with one statement.
pub fn block_of_one(alloc: Global, at: Span, first: Stmt) -> Result<Stmt, NoMemory>
    ensures { IfOk result (λ s. s ≡ Block at (first ∷ [])) }
{
    let mut body = Items::new(alloc);
    body.push(first)?;
    Ok(Stmt::Block { at, body })
}

/// A block with two statements.
pub fn block_of_two(alloc: Global, at: Span, first: Stmt, second: Stmt) -> Result<Stmt, NoMemory>
    ensures { IfOk result (λ s. s ≡ Block at (first ∷ second ∷ [])) }
{
    let mut body = Items::new(alloc);
    body.push(first)?;
    body.push(second)?;
    Ok(Stmt::Block { at, body })
}

/// The list of one name.
pub fn one_name(alloc: Global, bytes: &[u8]) -> Result<Names, NoMemory>
    ensures { IfOk result (λ names. names ≡ bytes.now ∷ []) }
{
    let mut names = Seq::new(alloc);
    names.push(Name::from_slice(alloc, bytes)?)?;
    Ok(names)
}
