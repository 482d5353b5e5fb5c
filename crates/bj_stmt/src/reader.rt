ghost use Rattle.bj_grammar.specs.Given.{text_of, place_of, Gives};
ghost use Rattle.bj_stmt.specs.Given.{Nests};
ghost use Rattle.bj_stmt.specs.Reading as spec;

use crate::StmtPart;
use bj_expr::Bounds;
use bj_grammar::{Stop, Symbol};
use bj_tree::StmtTree;
use sqlite_items::Boxed;
use std::alloc::Global;

/// The rules of statements, over a function that reads the parts nested in them.
#[derive(Clone, Copy)]
pub struct Reader<F> {
    /// Where trees are put.
    pub alloc: Global,
    /// How much reading may take: how many steps one loop may take, and how many nodes may stand below the statement.
    pub bounds: Bounds,
    /// What reads a nested part, given the bounds, the place and the part.
    pub nested: F,
}

impl<
    F: Fn(Global, &[Symbol], Bounds, usize, StmtPart) -> Result<(Boxed<StmtTree>, usize), Stop>,
> Reader<F> {
    /// A nested part.
    pub(crate) fn nest(
        &self,
        tokens: &[Symbol],
        at: usize,
        part: StmtPart,
    ) -> Result<(Boxed<StmtTree>, usize), Stop>
        requires { Nests self.now.bounds (F.pre self.now.nested) (F.post self.now.nested) }
        ensures { Gives result (spec.nested (place_of tokens.now) self.now.bounds.most self.now.bounds.room part (text_of tokens.now) at) }
    {
        (self.nested)(self.alloc, tokens, self.bounds, at, part)
    }
}
