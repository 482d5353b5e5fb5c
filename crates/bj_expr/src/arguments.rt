ghost use Rattle.bj_expr.specs.Reading as spec;
ghost use Rattle.bj_grammar.specs.Given.{text_of, place_of, Gives};
ghost use Rattle.bj_expr.specs.Given.{Nests, over_nested, commas_of};

use crate::reader::Reader;
use crate::{Bounds, Part};
use bj_expr_tree::{ExprTree, ExprTrees};
use bj_grammar::{Stop, Symbol, Terminal, out_of_turns, sees, word};
use sqlite_items::{Boxed, Items};
use std::alloc::Global;

impl<
    F: Fn(Global, &[Symbol], Bounds, usize, Part) -> Result<(Boxed<ExprTree>, usize), Stop>,
> Reader<F> {
    /// A comma and an expression, after others.
    #[tactic(auto, unfolding(crate::specs::Reading::comma))]
    pub(crate) fn comma(
        &self,
        tokens: &[Symbol],
        mut found: ExprTrees,
        at: usize,
    ) -> Result<(ExprTrees, usize), Stop>
        requires { Nests self.now.bounds (F.pre self.now.nested) (F.post self.now.nested) }
        ensures { Gives result (over_nested spec.comma tokens.now self.now.bounds found (text_of tokens.now) at) }
    {
        let at = word(tokens, at, Terminal::Comma)?;
        let (next, at) = self.nest(tokens, at, Part::Expression)?;
        found.push(next.into_inner())?;
        Ok((found, at))
    }

    /// The expressions after a first one, each after a comma.
    pub(crate) fn commas(
        &self,
        tokens: &[Symbol],
        mut found: ExprTrees,
        mut at: usize,
    ) -> Result<(ExprTrees, usize), Stop>
        requires { Nests self.now.bounds (F.pre self.now.nested) (F.post self.now.nested) }
        ensures { Gives result (commas_of self.now.bounds tokens.now found (text_of tokens.now) at) }
    {
        for _turn in 0..self.bounds.most {
            if !sees(tokens, at, Terminal::Comma) {
                return Ok((found, at));
            }
            (found, at) = self.comma(tokens, found, at)?;
        }
        if sees(tokens, at, Terminal::Comma) {
            return Err(out_of_turns());
        }
        Ok((found, at))
    }

    /// Expressions with commas between them.
    #[tactic(auto, unfolding(crate::specs::Reading::exprs))]
    pub(crate) fn exprs(&self, tokens: &[Symbol], at: usize) -> Result<(ExprTrees, usize), Stop>
        requires { Nests self.now.bounds (F.pre self.now.nested) (F.post self.now.nested) }
        ensures { Gives result (over_nested spec.exprs tokens.now self.now.bounds (text_of tokens.now) at) }
    {
        let (first, at) = self.nest(tokens, at, Part::Expression)?;
        let mut found = Items::new(self.alloc);
        found.push(first.into_inner())?;
        self.commas(tokens, found, at)
    }

    /// Arguments, which may be none.
    #[tactic(auto, unfolding(crate::specs::Reading::args))]
    pub(crate) fn args(&self, tokens: &[Symbol], at: usize) -> Result<(ExprTrees, usize), Stop>
        requires { Nests self.now.bounds (F.pre self.now.nested) (F.post self.now.nested) }
        ensures { Gives result (over_nested spec.args tokens.now self.now.bounds (text_of tokens.now) at) }
    {
        if sees(tokens, at, Terminal::RightParen) {
            return Ok((Items::new(self.alloc), at));
        }
        self.exprs(tokens, at)
    }

    /// Arguments in parentheses [JLS 15.12].
    #[tactic(auto, unfolding(crate::specs::Reading::arguments))]
    pub(crate) fn arguments(&self, tokens: &[Symbol], at: usize) -> Result<(ExprTrees, usize), Stop>
        requires { Nests self.now.bounds (F.pre self.now.nested) (F.post self.now.nested) }
        ensures { Gives result (over_nested spec.arguments tokens.now self.now.bounds (text_of tokens.now) at) }
    {
        let at = word(tokens, at, Terminal::LeftParen)?;
        let (all, at) = self.args(tokens, at)?;
        let at = word(tokens, at, Terminal::RightParen)?;
        Ok((all, at))
    }
}
