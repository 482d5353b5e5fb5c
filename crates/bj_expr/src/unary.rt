ghost use Rattle.bj_expr.specs.Reading as spec;
ghost use Rattle.bj_grammar.specs.Given.{text_of, place_of, Gives};
ghost use Rattle.bj_expr.specs.Given.{Nests, over_nested};

use crate::forms::operand_part;
use crate::operators::{literal_kind, negation_op, step_op};
use crate::reader::Reader;
use crate::sets::{is_least, is_negation, is_step, least_at, negation_at, step_at};
use crate::types::{is_cast, type_at};
use crate::{Bounds, Part};
use bj_expr_tree::{ExprTree, UnaryOp};
use bj_grammar::{Stop, Symbol, Terminal, place, sees, units, word};
use sqlite_items::Boxed;
use std::alloc::Global;

impl<
    F: Fn(Global, &[Symbol], Bounds, usize, Part) -> Result<(Boxed<ExprTree>, usize), Stop>,
> Reader<F> {
    /// A cast [JLS 15.16].
    #[tactic(auto, unfolding(crate::specs::Reading::cast))]
    pub(crate) fn cast(
        &self,
        tokens: &[Symbol],
        start: usize,
        at: usize,
    ) -> Result<(Boxed<ExprTree>, usize), Stop>
        requires { Nests self.now.bounds (F.pre self.now.nested) (F.post self.now.nested) }
        ensures { Gives result (over_nested spec.cast tokens.now self.now.bounds start (text_of tokens.now) at) }
    {
        let at = word(tokens, at, Terminal::LeftParen)?;
        let (to, at) = type_at(self.alloc, tokens, self.bounds.most, at)?;
        let at = word(tokens, at, Terminal::RightParen)?;
        let (operand, at) = self.nest(tokens, at, operand_part(&to))?;
        let tree = ExprTree::Cast {
            at: place(tokens, start),
            to,
            operand,
        };
        self.node(tree, at)
    }

    /// `~` or `!` and its operand [JLS 15.15.5, 15.15.6].
    #[tactic(auto, unfolding(crate::specs::Reading::negation))]
    pub(crate) fn negation(
        &self,
        tokens: &[Symbol],
        start: usize,
        at: usize,
    ) -> Result<(Boxed<ExprTree>, usize), Stop>
        requires { Nests self.now.bounds (F.pre self.now.nested) (F.post self.now.nested) }
        ensures { Gives result (over_nested spec.negation tokens.now self.now.bounds start (text_of tokens.now) at) }
    {
        let (op, at) = negation_at(tokens, at)?;
        let (operand, at) = self.nest(tokens, at, Part::Unary)?;
        let tree = ExprTree::Unary {
            at: place(tokens, start),
            op: negation_op(op),
            operand,
        };
        self.node(tree, at)
    }

    /// A unary expression that does not begin with `+`, `-`, `++` or `--` [JLS 15.15].
    #[tactic(auto, unfolding(crate::specs::Reading::plain))]
    pub(crate) fn plain(
        &self,
        tokens: &[Symbol],
        start: usize,
    ) -> Result<(Boxed<ExprTree>, usize), Stop>
        requires { Nests self.now.bounds (F.pre self.now.nested) (F.post self.now.nested) }
        ensures { Gives result (over_nested spec.plain tokens.now self.now.bounds (text_of tokens.now) start) }
    {
        if is_negation(tokens, start) {
            return self.negation(tokens, start, start);
        }
        if is_cast(tokens, start) {
            return self.cast(tokens, start, start);
        }
        self.postfix(tokens, start)
    }

    /// The least number of a type, after its minus [JLS 3.10.1].
    #[tactic(auto, unfolding(crate::specs::Reading::least))]
    pub(crate) fn least(
        &self,
        tokens: &[Symbol],
        start: usize,
        at: usize,
    ) -> Result<(Boxed<ExprTree>, usize), Stop>
        requires { Nests self.now.bounds (F.pre self.now.nested) (F.post self.now.nested) }
        ensures { Gives result (over_nested spec.least tokens.now self.now.bounds start (text_of tokens.now) at) }
    {
        let text = units(self.alloc, tokens, at)?;
        let literal_place = place(tokens, at);
        let (found, at) = least_at(tokens, at)?;
        let operand = ExprTree::Literal {
            at: literal_place,
            kind: literal_kind(found),
            text,
        };
        let (operand, at) = self.node(operand, at)?;
        let (operand, at) = self.limited(tokens, operand, at)?;
        let tree = ExprTree::Unary {
            at: place(tokens, start),
            op: UnaryOp::Minus,
            operand,
        };
        self.node(tree, at)
    }

    /// What a minus stands before [JLS 15.15.4].
    #[tactic(auto, unfolding(crate::specs::Reading::negative))]
    pub(crate) fn negative(
        &self,
        tokens: &[Symbol],
        start: usize,
        at: usize,
    ) -> Result<(Boxed<ExprTree>, usize), Stop>
        requires { Nests self.now.bounds (F.pre self.now.nested) (F.post self.now.nested) }
        ensures { Gives result (over_nested spec.negative tokens.now self.now.bounds start (text_of tokens.now) at) }
    {
        if is_least(tokens, at) {
            return self.least(tokens, start, at);
        }
        let (operand, at) = self.nest(tokens, at, Part::Unary)?;
        let tree = ExprTree::Unary {
            at: place(tokens, start),
            op: UnaryOp::Minus,
            operand,
        };
        self.node(tree, at)
    }

    /// A plus and its operand [JLS 15.15.3].
    #[tactic(auto, unfolding(crate::specs::Reading::positive))]
    pub(crate) fn positive(
        &self,
        tokens: &[Symbol],
        start: usize,
        at: usize,
    ) -> Result<(Boxed<ExprTree>, usize), Stop>
        requires { Nests self.now.bounds (F.pre self.now.nested) (F.post self.now.nested) }
        ensures { Gives result (over_nested spec.positive tokens.now self.now.bounds start (text_of tokens.now) at) }
    {
        let at = word(tokens, at, Terminal::Plus)?;
        let (operand, at) = self.nest(tokens, at, Part::Unary)?;
        let tree = ExprTree::Unary {
            at: place(tokens, start),
            op: UnaryOp::Plus,
            operand,
        };
        self.node(tree, at)
    }

    /// `++` or `--` and its operand [JLS 15.15.1, 15.15.2].
    #[tactic(auto, unfolding(crate::specs::Reading::prefixed))]
    pub(crate) fn prefixed(
        &self,
        tokens: &[Symbol],
        start: usize,
        at: usize,
    ) -> Result<(Boxed<ExprTree>, usize), Stop>
        requires { Nests self.now.bounds (F.pre self.now.nested) (F.post self.now.nested) }
        ensures { Gives result (over_nested spec.prefixed tokens.now self.now.bounds start (text_of tokens.now) at) }
    {
        let (op, at) = step_at(tokens, at)?;
        let (operand, at) = self.nest(tokens, at, Part::Unary)?;
        let tree = ExprTree::Prefix {
            at: place(tokens, start),
            op: step_op(op),
            operand,
        };
        self.node(tree, at)
    }

    /// A unary expression [JLS 15.15].
    #[tactic(auto, unfolding(crate::specs::Reading::unary))]
    pub(crate) fn unary(
        &self,
        tokens: &[Symbol],
        start: usize,
    ) -> Result<(Boxed<ExprTree>, usize), Stop>
        requires { Nests self.now.bounds (F.pre self.now.nested) (F.post self.now.nested) }
        ensures { Gives result (over_nested spec.unary tokens.now self.now.bounds (text_of tokens.now) start) }
    {
        if sees(tokens, start, Terminal::Minus) {
            let at = word(tokens, start, Terminal::Minus)?;
            return self.negative(tokens, start, at);
        }
        if sees(tokens, start, Terminal::Plus) {
            return self.positive(tokens, start, start);
        }
        if is_step(tokens, start) {
            return self.prefixed(tokens, start, start);
        }
        self.plain(tokens, start)
    }
}
