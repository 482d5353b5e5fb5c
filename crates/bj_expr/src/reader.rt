ghost use Rattle.bj_grammar.specs.Reader.{Found};
ghost use Rattle.bj_expr.specs.Reading as spec;
ghost use Rattle.bj_grammar.specs.Given.{text_of, Gives};
ghost use Rattle.bj_expr.specs.Given.{Nests, part_of};

use crate::nodes::node_below;
use crate::{Bounds, Part};
use bj_expr_tree::ExprTree;
use bj_grammar::{Stop, Symbol};
use sqlite_items::Boxed;
use std::alloc::Global;

/// The rules of expressions and initializers, over a function that reads the parts nested in them.
#[derive(Clone, Copy)]
pub struct Reader<F> {
    /// Where trees are put.
    pub alloc: Global,
    /// How much the reading of a nested part may take.
    pub bounds: Bounds,
    /// What reads a nested part, given the bounds, the place and the part.
    pub nested: F,
}

impl<
    F: Fn(Global, &[Symbol], Bounds, usize, Part) -> Result<(Boxed<ExprTree>, usize), Stop>,
> Reader<F> {
    /// A nested part.
    pub(crate) fn nest(
        &self,
        tokens: &[Symbol],
        at: usize,
        part: Part,
    ) -> Result<(Boxed<ExprTree>, usize), Stop>
        requires { Nests self.now.bounds (F.pre self.now.nested) (F.post self.now.nested) }
        ensures { Gives result (part_of tokens.now self.now.bounds part (text_of tokens.now) at) }
    {
        (self.nested)(self.alloc, tokens, self.bounds, at, part)
    }

    /// A node that stands up to a place, on the heap as each node is.
    pub(crate) fn node(&self, tree: ExprTree, at: usize) -> Result<(Boxed<ExprTree>, usize), Stop>
        ensures { Gives result (Found tree at) }
    {
        Ok((Boxed::new(self.alloc, tree)?, at))
    }

    /// A part that was read before the node above it was seen, and that there is room for below it.
    #[tactic(auto, unfolding(crate::specs::Reading::limited))]
    pub(crate) fn limited(
        &self,
        tokens: &[Symbol],
        tree: Boxed<ExprTree>,
        at: usize,
    ) -> Result<(Boxed<ExprTree>, usize), Stop>
        ensures { Gives result (spec.limited self.now.bounds.room tree (text_of tokens.now) at) }
    {
        limited(tokens, tree, self.bounds.room, at)
    }
}

/// A tree that has no node with so many above it.
///
/// # Errors
///
/// `Deep` at the first such node.
#[tactic(auto, unfolding(crate::specs::Reading::limited))]
pub fn limited(
    _tokens: &[Symbol],
    tree: Boxed<ExprTree>,
    room: u16,
    at: usize,
) -> Result<(Boxed<ExprTree>, usize), Stop>
    ensures { Gives result (spec.limited room tree (text_of _tokens.now) at) }
{
    match node_below(tree.get(), room) {
        Some(node) => Err(Stop::Deep(node)),
        None => Ok((tree, at)),
    }
}
