ghost use Rattle.std.specs.Prelude.{◌≡◌, IfOk, [], ◌∷◌};
ghost use Rattle.bj_grammar.specs.Given.{Gives};
ghost use Rattle.bj_grammar.specs.Reader.{Found};
ghost use Rattle.bj_tree.specs.declared.stmt.StmtTree.TheVariants as stmt;

use bj_base::{NoMemory, Seq, Span};
use bj_grammar::Stop;
use bj_tree::{StmtTree, StmtTrees, TypeTree, TypeTrees, VariableTrees};
use sqlite_items::{Boxed, Items};
use std::alloc::{AllocError, Global};

/// A node that stands up to a place, on the heap as each node is.
pub(crate) fn node(
    alloc: Global,
    tree: StmtTree,
    at: usize,
) -> Result<(Boxed<StmtTree>, usize), Stop>
    ensures { Gives result (Found tree at) }
{
    Ok((Boxed::new(alloc, tree)?, at))
}

/// One statement.
pub(crate) fn one(alloc: Global, tree: Boxed<StmtTree>) -> Result<StmtTrees, AllocError>
    ensures { IfOk result (λ trees. trees ≡ tree ∷ []) }
{
    let mut found = Items::new(alloc);
    found.push(tree.into_inner())?;
    Ok(found)
}

/// The type of a catch of one type.
pub(crate) fn one_type(alloc: Global, of: TypeTree) -> Result<TypeTrees, NoMemory>
    ensures { IfOk result (λ types. types ≡ of ∷ []) }
{
    let mut types = Seq::new(alloc);
    types.push(of)?;
    Ok(types)
}

/// A declaration, which a `for` begins with.
pub(crate) fn one_local(
    alloc: Global,
    at: Span,
    is_final: bool,
    of: TypeTree,
    variables: VariableTrees,
) -> Result<StmtTrees, AllocError>
    ensures { IfOk result (λ trees. trees ≡ stmt.Local at is_final of variables ∷ []) }
{
    let mut found = Items::new(alloc);
    found.push(StmtTree::Local {
        at,
        is_final,
        of,
        variables,
    })?;
    Ok(found)
}
