ghost use Rattle.std.specs.Prelude.{[], ◌∷◌, ◌++◌};
ghost use Rattle.bj_grammar.specs.Reader.{Found, and_then, sign, pure};
ghost use Rattle.bj_grammar.specs.declared.terminal.Terminal.TheVariants as t;
ghost use Rattle.bj_expr.specs.declared.part.Part.TheVariants as part;
ghost use Rattle.bj_expr.specs.Reading as spec;
ghost use Rattle.bj_grammar.specs.Given.{text_of, place_of, Gives};
ghost use Rattle.bj_expr.specs.Given.{Nests, over_nested, part_of};

use crate::reader::Reader;
use crate::sets::type_word_at;
use crate::types::{element_type, pairs};
use crate::{Bounds, Part};
use bj_base::JText;
use bj_expr_tree::{ExprTree, ExprTrees};
use bj_grammar::{Stop, Symbol, Terminal, out_of_turns, place, sees, units, word};
use sqlite_items::{Boxed, Items};
use std::alloc::Global;

impl<
    F: Fn(Global, &[Symbol], Bounds, usize, Part) -> Result<(Boxed<ExprTree>, usize), Stop>,
> Reader<F> {
    /// The values of a new array, whose type has so many pairs of brackets.
    #[tactic(auto, unfolding(crate::specs::Reading::valued))]
    pub(crate) fn valued(
        &self,
        tokens: &[Symbol],
        start: usize,
        element: usize,
        dims: u32,
        at: usize,
    ) -> Result<(Boxed<ExprTree>, usize), Stop>
        requires { Nests self.now.bounds (F.pre self.now.nested) (F.post self.now.nested) }
        ensures { Gives result (over_nested spec.valued tokens.now self.now.bounds start element (text_of tokens.now element) dims (text_of tokens.now) at) }
    {
        let (values, at) = self.values(tokens, at)?;
        let of = element_type(self.alloc, tokens, element, dims)?;
        let tree = ExprTree::NewValues {
            at: place(tokens, start),
            of,
            values,
        };
        self.node(tree, at)
    }

    /// The sizes behind some, and how many pairs of brackets without a size follow them.
    pub(crate) fn more_sizes(
        &self,
        tokens: &[Symbol],
        mut found: ExprTrees,
        mut at: usize,
    ) -> Result<((ExprTrees, u32), usize), Stop>
        requires { Nests self.now.bounds (F.pre self.now.nested) (F.post self.now.nested) }
        ensures { Gives result (over_nested spec.more_sizes tokens.now self.now.bounds self.now.bounds.most found (text_of tokens.now) at) }
    {
        for _turn in 0..self.bounds.most {
            if !sees(tokens, at, Terminal::LeftBracket) {
                return Ok(((found, 0), at));
            }
            at = word(tokens, at, Terminal::LeftBracket)?;
            if sees(tokens, at, Terminal::RightBracket) {
                return self.without_size(tokens, found, at);
            }
            (found, at) = self.next_size(tokens, found, at)?;
        }
        if sees(tokens, at, Terminal::LeftBracket) {
            return Err(out_of_turns());
        }
        Ok(((found, 0), at))
    }

    /// A size and its closing bracket, after others.
    pub(crate) fn next_size(
        &self,
        tokens: &[Symbol],
        mut found: ExprTrees,
        at: usize,
    ) -> Result<(ExprTrees, usize), Stop>
        requires { Nests self.now.bounds (F.pre self.now.nested) (F.post self.now.nested) }
        ensures { Gives result (and_then (part_of tokens.now self.now.bounds part.Expression (text_of tokens.now) at) (λ x j. sign t.RightBracket (pure (found ++ x ∷ [])) (text_of tokens.now) j)) }
    {
        let (next, at) = self.nest(tokens, at, Part::Expression)?;
        let at = word(tokens, at, Terminal::RightBracket)?;
        found.push(next.into_inner())?;
        Ok((found, at))
    }

    /// The pairs of brackets without a size, from the first closing bracket on.
    pub(crate) fn without_size(
        &self,
        tokens: &[Symbol],
        found: ExprTrees,
        at: usize,
    ) -> Result<((ExprTrees, u32), usize), Stop>
        requires { Nests self.now.bounds (F.pre self.now.nested) (F.post self.now.nested) }
        ensures { Gives result (sign t.RightBracket (λ s i. and_then (spec.pairs self.now.bounds.most 1 s i) (λ d j. Found (found, d) j)) (text_of tokens.now) at) }
    {
        let at = word(tokens, at, Terminal::RightBracket)?;
        let (dims, at) = pairs(tokens, self.bounds.most, 1, at)?;
        Ok(((found, dims), at))
    }

    /// A new array of given sizes, from the first size on.
    #[tactic(auto, unfolding(crate::specs::Reading::sized))]
    pub(crate) fn sized(
        &self,
        tokens: &[Symbol],
        start: usize,
        element: usize,
        at: usize,
    ) -> Result<(Boxed<ExprTree>, usize), Stop>
        requires { Nests self.now.bounds (F.pre self.now.nested) (F.post self.now.nested) }
        ensures { Gives result (over_nested spec.sized tokens.now self.now.bounds start element (text_of tokens.now element) (text_of tokens.now) at) }
    {
        let (first, at) = self.nest(tokens, at, Part::Expression)?;
        let at = word(tokens, at, Terminal::RightBracket)?;
        let mut found = Items::new(self.alloc);
        found.push(first.into_inner())?;
        let ((sizes, dims), at) = self.more_sizes(tokens, found, at)?;
        let of = element_type(self.alloc, tokens, element, 0)?;
        let tree = ExprTree::NewArray {
            at: place(tokens, start),
            of,
            sizes,
            dims,
        };
        self.node(tree, at)
    }

    /// A new array with its values, from the first closing bracket on.
    pub(crate) fn with_values(
        &self,
        tokens: &[Symbol],
        start: usize,
        element: usize,
        at: usize,
    ) -> Result<(Boxed<ExprTree>, usize), Stop>
        requires { Nests self.now.bounds (F.pre self.now.nested) (F.post self.now.nested) }
        ensures { Gives result (over_nested spec.unsized tokens.now self.now.bounds start element (text_of tokens.now element) (text_of tokens.now) at) }
    {
        let at = word(tokens, at, Terminal::RightBracket)?;
        let (dims, at) = pairs(tokens, self.bounds.most, 1, at)?;
        self.valued(tokens, start, element, dims, at)
    }

    /// A new array, from what follows its element type on [JLS 15.10.1].
    #[tactic(auto, unfolding(crate::specs::Reading::array))]
    pub(crate) fn array(
        &self,
        tokens: &[Symbol],
        start: usize,
        element: usize,
        at: usize,
    ) -> Result<(Boxed<ExprTree>, usize), Stop>
        requires { Nests self.now.bounds (F.pre self.now.nested) (F.post self.now.nested) }
        ensures { Gives result (over_nested spec.array tokens.now self.now.bounds start element (text_of tokens.now element) (text_of tokens.now) at) }
    {
        if sees(tokens, at, Terminal::LeftBrace) {
            return self.valued(tokens, start, element, 0, at);
        }
        let at = word(tokens, at, Terminal::LeftBracket)?;
        if sees(tokens, at, Terminal::RightBracket) {
            return self.with_values(tokens, start, element, at);
        }
        self.sized(tokens, start, element, at)
    }

    /// A new object, from its arguments on [JLS 15.9].
    #[tactic(auto, unfolding(crate::specs::Reading::object))]
    pub(crate) fn object(
        &self,
        tokens: &[Symbol],
        start: usize,
        class: JText,
        at: usize,
    ) -> Result<(Boxed<ExprTree>, usize), Stop>
        requires { Nests self.now.bounds (F.pre self.now.nested) (F.post self.now.nested) }
        ensures { Gives result (over_nested spec.object tokens.now self.now.bounds start class (text_of tokens.now) at) }
    {
        let (args, at) = self.arguments(tokens, at)?;
        let tree = ExprTree::New {
            at: place(tokens, start),
            class,
            args,
        };
        self.node(tree, at)
    }

    /// A new object or array, whose class or element type is the token at the place `element`.
    #[tactic(auto, unfolding(crate::specs::Reading::created))]
    pub(crate) fn created(
        &self,
        tokens: &[Symbol],
        start: usize,
        element: usize,
        at: usize,
    ) -> Result<(Boxed<ExprTree>, usize), Stop>
        requires { Nests self.now.bounds (F.pre self.now.nested) (F.post self.now.nested) }
        ensures { Gives result (over_nested spec.created tokens.now self.now.bounds start element (text_of tokens.now element) (text_of tokens.now) at) }
    {
        if sees(tokens, element, Terminal::Word) {
            if sees(tokens, at, Terminal::LeftParen) {
                let class = units(self.alloc, tokens, element)?;
                return self.object(tokens, start, class, at);
            }
            return self.array(tokens, start, element, at);
        }
        self.array(tokens, start, element, at)
    }

    /// A new object or array [JLS 15.9, 15.10].
    #[tactic(auto, unfolding(crate::specs::Reading::creation))]
    pub(crate) fn creation(
        &self,
        tokens: &[Symbol],
        start: usize,
        at: usize,
    ) -> Result<(Boxed<ExprTree>, usize), Stop>
        requires { Nests self.now.bounds (F.pre self.now.nested) (F.post self.now.nested) }
        ensures { Gives result (over_nested spec.creation tokens.now self.now.bounds start (text_of tokens.now) at) }
    {
        let element = word(tokens, at, Terminal::New)?;
        let (_, at) = type_word_at(tokens, element)?;
        self.created(tokens, start, element, at)
    }
}
