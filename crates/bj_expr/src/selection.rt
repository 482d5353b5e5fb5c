ghost use Rattle.bj_grammar.specs.declared.terminal.Terminal.TheVariants as t;
ghost use Rattle.bj_grammar.specs.Reader.{and_then, sign, pure};
ghost use Rattle.bj_expr.specs.declared.part.Part.TheVariants as part;
ghost use Rattle.bj_expr.specs.Reading as spec;
ghost use Rattle.bj_grammar.specs.Given.{text_of, place_of, Gives};
ghost use Rattle.bj_expr.specs.Given.{Nests, over_nested, part_of, selections_of};
ghost use Rattle.bj_expr_tree.specs.declared.expr.ExprTree.TheVariants as trees;

use crate::forms::is_new_array;
use crate::reader::Reader;
use crate::sets::is_selector;
use crate::{Bounds, Part};
use bj_base::JText;
use bj_expr_tree::ExprTree;
use bj_grammar::{Stop, Symbol, Terminal, out_of_turns, place, sees, units, word};
use sqlite_items::Boxed;
use std::alloc::Global;

impl<
    F: Fn(Global, &[Symbol], Bounds, usize, Part) -> Result<(Boxed<ExprTree>, usize), Stop>,
> Reader<F> {
    /// A field or a call, from behind its name on [JLS 15.11, 15.12].
    #[tactic(auto, unfolding(crate::specs::Reading::member))]
    pub(crate) fn member(
        &self,
        tokens: &[Symbol],
        start: usize,
        target: Boxed<ExprTree>,
        name: JText,
        at: usize,
    ) -> Result<(Boxed<ExprTree>, usize), Stop>
        requires { Nests self.now.bounds (F.pre self.now.nested) (F.post self.now.nested) }
        ensures { Gives result (over_nested spec.member tokens.now self.now.bounds start target name (text_of tokens.now) at) }
    {
        if sees(tokens, at, Terminal::LeftParen) {
            let (args, at) = self.arguments(tokens, at)?;
            let tree = ExprTree::MethodCall {
                at: place(tokens, start),
                target,
                name,
                args,
            };
            return self.node(tree, at);
        }
        let tree = ExprTree::Field {
            at: place(tokens, start),
            target,
            name,
        };
        self.node(tree, at)
    }

    /// An index and its closing bracket.
    fn index(
        &self,
        tokens: &[Symbol],
        start: usize,
        array: Boxed<ExprTree>,
        at: usize,
    ) -> Result<(Boxed<ExprTree>, usize), Stop>
        requires { Nests self.now.bounds (F.pre self.now.nested) (F.post self.now.nested) }
        ensures { Gives result (and_then (part_of tokens.now self.now.bounds part.Expression (text_of tokens.now) at) (λ y j. sign t.RightBracket (pure (trees.Index (place_of tokens.now start) array y)) (text_of tokens.now) j)) }
    {
        let (index, at) = self.nest(tokens, at, Part::Expression)?;
        let at = word(tokens, at, Terminal::RightBracket)?;
        let tree = ExprTree::Index {
            at: place(tokens, start),
            array,
            index,
        };
        self.node(tree, at)
    }

    /// An index in brackets [JLS 15.10.3].
    #[tactic(auto, unfolding(crate::specs::Reading::element))]
    pub(crate) fn element(
        &self,
        tokens: &[Symbol],
        start: usize,
        array: Boxed<ExprTree>,
        at: usize,
    ) -> Result<(Boxed<ExprTree>, usize), Stop>
        requires { Nests self.now.bounds (F.pre self.now.nested) (F.post self.now.nested) }
        ensures { Gives result (over_nested spec.element tokens.now self.now.bounds start array (text_of tokens.now) at) }
    {
        let at = word(tokens, at, Terminal::LeftBracket)?;
        let (array, at) = self.limited(tokens, array, at)?;
        self.index(tokens, start, array, at)
    }

    /// A dot, and a field or a call.
    #[tactic(auto, unfolding(crate::specs::Reading::dotted))]
    pub(crate) fn dotted(
        &self,
        tokens: &[Symbol],
        start: usize,
        target: Boxed<ExprTree>,
        at: usize,
    ) -> Result<(Boxed<ExprTree>, usize), Stop>
        requires { Nests self.now.bounds (F.pre self.now.nested) (F.post self.now.nested) }
        ensures { Gives result (over_nested spec.dotted tokens.now self.now.bounds start target (text_of tokens.now) at) }
    {
        let at = word(tokens, at, Terminal::Dot)?;
        let (target, name_at) = self.limited(tokens, target, at)?;
        let name = units(self.alloc, tokens, name_at)?;
        let at = word(tokens, name_at, Terminal::Word)?;
        self.member(tokens, start, target, name, at)
    }

    /// What is selected from a primary expression. The brackets behind a new array of given sizes are its own [JLS 15.10.1].
    #[tactic(auto, unfolding(crate::specs::Reading::selection))]
    pub(crate) fn selection(
        &self,
        tokens: &[Symbol],
        start: usize,
        target: Boxed<ExprTree>,
        at: usize,
    ) -> Result<(Boxed<ExprTree>, usize), Stop>
        requires { Nests self.now.bounds (F.pre self.now.nested) (F.post self.now.nested) }
        ensures { Gives result (over_nested spec.selection tokens.now self.now.bounds start target (text_of tokens.now) at) }
    {
        if is_new_array(target.get()) {
            return self.dotted(tokens, start, target, at);
        }
        if sees(tokens, at, Terminal::LeftBracket) {
            return self.element(tokens, start, target, at);
        }
        self.dotted(tokens, start, target, at)
    }

    /// All that is selected, from the left.
    pub(crate) fn selections(
        &self,
        tokens: &[Symbol],
        start: usize,
        mut target: Boxed<ExprTree>,
        mut at: usize,
    ) -> Result<(Boxed<ExprTree>, usize), Stop>
        requires { Nests self.now.bounds (F.pre self.now.nested) (F.post self.now.nested) }
        ensures { Gives result (selections_of self.now.bounds tokens.now start target (text_of tokens.now) at) }
    {
        for _turn in 0..self.bounds.most {
            if !is_selector(tokens, at) {
                return Ok((target, at));
            }
            (target, at) = self.selection(tokens, start, target, at)?;
        }
        if is_selector(tokens, at) {
            return Err(out_of_turns());
        }
        Ok((target, at))
    }

    /// A primary expression and what is selected from it.
    #[tactic(auto, unfolding(crate::specs::Reading::selected))]
    pub(crate) fn selected(
        &self,
        tokens: &[Symbol],
        start: usize,
    ) -> Result<(Boxed<ExprTree>, usize), Stop>
        requires { Nests self.now.bounds (F.pre self.now.nested) (F.post self.now.nested) }
        ensures { Gives result (over_nested spec.selected tokens.now self.now.bounds (text_of tokens.now) start) }
    {
        let (first, at) = self.primary(tokens, start)?;
        self.selections(tokens, start, first, at)
    }
}
