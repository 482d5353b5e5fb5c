ghost use Rattle.std.specs.Prelude.{[], ◌∷◌};
ghost use Rattle.bj_grammar.specs.Reader.{and_then};
ghost use Rattle.bj_expr.specs.declared.part.Part.TheVariants as part;
ghost use Rattle.bj_expr.specs.Reading as spec;
ghost use Rattle.bj_grammar.specs.Given.{text_of, place_of, Gives};
ghost use Rattle.bj_expr.specs.Given.{Nests, over_nested, part_of};

use crate::reader::Reader;
use crate::{Bounds, Part};
use bj_expr_tree::{ExprTree, ExprTrees};
use bj_grammar::{Stop, Symbol, Terminal, out_of_turns, sees, word};
use sqlite_items::{Boxed, Items};
use std::alloc::Global;

impl<
    F: Fn(Global, &[Symbol], Bounds, usize, Part) -> Result<(Boxed<ExprTree>, usize), Stop>,
> Reader<F> {
    /// The values behind some, up to the closing brace. A comma may stand before it.
    pub(crate) fn more_values(
        &self,
        tokens: &[Symbol],
        mut found: ExprTrees,
        mut at: usize,
    ) -> Result<(ExprTrees, usize), Stop>
        requires { Nests self.now.bounds (F.pre self.now.nested) (F.post self.now.nested) }
        ensures { Gives result (over_nested spec.more_values tokens.now self.now.bounds self.now.bounds.most found (text_of tokens.now) at) }
    {
        for _turn in 0..self.bounds.most {
            if !sees(tokens, at, Terminal::Comma) {
                return Ok((found, at));
            }
            at = word(tokens, at, Terminal::Comma)?;
            if sees(tokens, at, Terminal::RightBrace) {
                return Ok((found, at));
            }
            let (value, next) = self.nest(tokens, at, Part::Initializer)?;
            found.push(value.into_inner())?;
            at = next;
        }
        if sees(tokens, at, Terminal::Comma) {
            return Err(out_of_turns());
        }
        Ok((found, at))
    }

    /// One value and those behind it.
    pub(crate) fn first_values(
        &self,
        tokens: &[Symbol],
        at: usize,
    ) -> Result<(ExprTrees, usize), Stop>
        requires { Nests self.now.bounds (F.pre self.now.nested) (F.post self.now.nested) }
        ensures { Gives result (and_then (part_of tokens.now self.now.bounds part.Initializer (text_of tokens.now) at) (λ x j. over_nested spec.more_values tokens.now self.now.bounds self.now.bounds.most (x ∷ []) (text_of tokens.now) j)) }
    {
        let (first, at) = self.nest(tokens, at, Part::Initializer)?;
        let mut found = Items::new(self.alloc);
        found.push(first.into_inner())?;
        self.more_values(tokens, found, at)
    }

    /// What stands between braces: values, a comma alone, or nothing.
    #[tactic(auto, unfolding(crate::specs::Reading::inside_braces))]
    pub(crate) fn inside_braces(
        &self,
        tokens: &[Symbol],
        at: usize,
    ) -> Result<(ExprTrees, usize), Stop>
        requires { Nests self.now.bounds (F.pre self.now.nested) (F.post self.now.nested) }
        ensures { Gives result (over_nested spec.inside_braces tokens.now self.now.bounds (text_of tokens.now) at) }
    {
        if sees(tokens, at, Terminal::RightBrace) {
            return Ok((Items::new(self.alloc), at));
        }
        if sees(tokens, at, Terminal::Comma) {
            let at = word(tokens, at, Terminal::Comma)?;
            return Ok((Items::new(self.alloc), at));
        }
        self.first_values(tokens, at)
    }

    /// Values in braces [JLS 10.6].
    #[tactic(auto, unfolding(crate::specs::Reading::values))]
    pub(crate) fn values(&self, tokens: &[Symbol], at: usize) -> Result<(ExprTrees, usize), Stop>
        requires { Nests self.now.bounds (F.pre self.now.nested) (F.post self.now.nested) }
        ensures { Gives result (over_nested spec.values tokens.now self.now.bounds (text_of tokens.now) at) }
    {
        let at = word(tokens, at, Terminal::LeftBrace)?;
        let (all, at) = self.inside_braces(tokens, at)?;
        let at = word(tokens, at, Terminal::RightBrace)?;
        Ok((all, at))
    }
}
