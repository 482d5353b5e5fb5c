ghost use Rattle.bj_grammar.specs.declared.terminal.Terminal.TheVariants as t;
ghost use Rattle.bj_grammar.specs.Reader.{Found, and_then, sign};
ghost use Rattle.bj_expr.specs.declared.part.Part.TheVariants as part;
ghost use Rattle.bj_expr.specs.Grammar as grammar;
ghost use Rattle.bj_expr.specs.Reading as spec;
ghost use Rattle.bj_grammar.specs.Given.{text_of, place_of, Gives};
ghost use Rattle.bj_expr.specs.Given.{Nests, over_nested, part_of};
ghost use Rattle.bj_expr_tree.specs.declared.expr.ExprTree.TheVariants as trees;

use crate::forms::is_unary;
use crate::operators::assign_op;
use crate::reader::Reader;
use crate::sets::{assign_at, is_assign};
use crate::{Bounds, Part};
use bj_expr_tree::ExprTree;
use bj_grammar::{Stop, Symbol, Terminal, place, sees, word};
use sqlite_items::Boxed;
use std::alloc::Global;

/// How many ranks of operators with two operands there are.
const RANKS: u8 = 10;

impl<
    F: Fn(Global, &[Symbol], Bounds, usize, Part) -> Result<(Boxed<ExprTree>, usize), Stop>,
> Reader<F> {
    /// The two ways, after the question mark.
    fn ways(
        &self,
        tokens: &[Symbol],
        start: usize,
        test: Boxed<ExprTree>,
        at: usize,
    ) -> Result<(Boxed<ExprTree>, usize), Stop>
        requires { Nests self.now.bounds (F.pre self.now.nested) (F.post self.now.nested) }
        ensures { Gives result (and_then (part_of tokens.now self.now.bounds part.Expression (text_of tokens.now) at) (λ y j. sign t.Colon (over_nested spec.otherwise tokens.now self.now.bounds start test y) (text_of tokens.now) j)) }
    {
        let (chosen, at) = self.nest(tokens, at, Part::Expression)?;
        let at = word(tokens, at, Terminal::Colon)?;
        self.otherwise(tokens, start, test, chosen, at)
    }

    /// A question mark and the two ways of a conditional expression.
    #[tactic(auto, unfolding(crate::specs::Reading::alternatives))]
    pub(crate) fn alternatives(
        &self,
        tokens: &[Symbol],
        start: usize,
        test: Boxed<ExprTree>,
        at: usize,
    ) -> Result<(Boxed<ExprTree>, usize), Stop>
        requires { Nests self.now.bounds (F.pre self.now.nested) (F.post self.now.nested) }
        ensures { Gives result (over_nested spec.alternatives tokens.now self.now.bounds start test (text_of tokens.now) at) }
    {
        let at = word(tokens, at, Terminal::Question)?;
        let (test, at) = self.limited(tokens, test, at)?;
        self.ways(tokens, start, test, at)
    }

    /// The second way, after the colon.
    #[tactic(auto, unfolding(crate::specs::Reading::otherwise))]
    pub(crate) fn otherwise(
        &self,
        tokens: &[Symbol],
        start: usize,
        test: Boxed<ExprTree>,
        chosen: Boxed<ExprTree>,
        at: usize,
    ) -> Result<(Boxed<ExprTree>, usize), Stop>
        requires { Nests self.now.bounds (F.pre self.now.nested) (F.post self.now.nested) }
        ensures { Gives result (over_nested spec.otherwise tokens.now self.now.bounds start test chosen (text_of tokens.now) at) }
    {
        let (other, at) = self.nest(tokens, at, Part::Conditional)?;
        let tree = ExprTree::Conditional {
            at: place(tokens, start),
            test,
            chosen,
            other,
        };
        self.node(tree, at)
    }

    /// The two ways of a conditional expression, if a question mark comes next.
    #[tactic(auto, unfolding(crate::specs::Reading::chosen))]
    pub(crate) fn chosen(
        &self,
        tokens: &[Symbol],
        start: usize,
        test: Boxed<ExprTree>,
        at: usize,
    ) -> Result<(Boxed<ExprTree>, usize), Stop>
        requires { Nests self.now.bounds (F.pre self.now.nested) (F.post self.now.nested) }
        ensures { Gives result (over_nested spec.chosen tokens.now self.now.bounds start test (text_of tokens.now) at) }
    {
        if sees(tokens, at, Terminal::Question) {
            return self.alternatives(tokens, start, test, at);
        }
        Ok((test, at))
    }

    /// A conditional expression, or one that binds tighter [JLS 15.25].
    #[tactic(auto, unfolding(crate::specs::Reading::conditional))]
    pub(crate) fn conditional(
        &self,
        tokens: &[Symbol],
        start: usize,
    ) -> Result<(Boxed<ExprTree>, usize), Stop>
        requires { Nests self.now.bounds (F.pre self.now.nested) (F.post self.now.nested) }
        ensures { Gives result (over_nested spec.conditional tokens.now self.now.bounds (text_of tokens.now) start) }
    {
        let (test, at) = self.level(tokens, start, RANKS)?;
        self.chosen(tokens, start, test, at)
    }

    /// What is assigned, after the operator.
    fn value(
        &self,
        tokens: &[Symbol],
        start: usize,
        op: Terminal,
        target: Boxed<ExprTree>,
        at: usize,
    ) -> Result<(Boxed<ExprTree>, usize), Stop>
        requires { Nests self.now.bounds (F.pre self.now.nested) (F.post self.now.nested) }
        ensures { Gives result (and_then (part_of tokens.now self.now.bounds part.Expression (text_of tokens.now) at) (λ r j. Found (trees.Assign (place_of tokens.now start) (grammar.assign_op op) target r) j)) }
    {
        let (value, at) = self.nest(tokens, at, Part::Expression)?;
        let tree = ExprTree::Assign {
            at: place(tokens, start),
            op: assign_op(op),
            target,
            value,
        };
        self.node(tree, at)
    }

    /// An operator of assignment and what is assigned [JLS 15.26].
    #[tactic(auto, unfolding(crate::specs::Reading::assignment))]
    pub(crate) fn assignment(
        &self,
        tokens: &[Symbol],
        start: usize,
        target: Boxed<ExprTree>,
        at: usize,
    ) -> Result<(Boxed<ExprTree>, usize), Stop>
        requires { Nests self.now.bounds (F.pre self.now.nested) (F.post self.now.nested) }
        ensures { Gives result (over_nested spec.assignment tokens.now self.now.bounds start target (text_of tokens.now) at) }
    {
        let (op, at) = assign_at(tokens, at)?;
        let (target, at) = self.limited(tokens, target, at)?;
        self.value(tokens, start, op, target, at)
    }

    /// An assignment, if the left side is unary and an operator of assignment comes next.
    #[tactic(auto, unfolding(crate::specs::Reading::assigned))]
    pub(crate) fn assigned(
        &self,
        tokens: &[Symbol],
        start: usize,
        target: Boxed<ExprTree>,
        at: usize,
    ) -> Result<(Boxed<ExprTree>, usize), Stop>
        requires { Nests self.now.bounds (F.pre self.now.nested) (F.post self.now.nested) }
        ensures { Gives result (over_nested spec.assigned tokens.now self.now.bounds start target (text_of tokens.now) at) }
    {
        if is_unary(target.get()) {
            if is_assign(tokens, at) {
                return self.assignment(tokens, start, target, at);
            }
            return Ok((target, at));
        }
        Ok((target, at))
    }

    /// A whole expression.
    #[tactic(auto, unfolding(crate::specs::Reading::expression))]
    pub(crate) fn expression(
        &self,
        tokens: &[Symbol],
        start: usize,
    ) -> Result<(Boxed<ExprTree>, usize), Stop>
        requires { Nests self.now.bounds (F.pre self.now.nested) (F.post self.now.nested) }
        ensures { Gives result (over_nested spec.expression tokens.now self.now.bounds (text_of tokens.now) start) }
    {
        let (left, at) = self.conditional(tokens, start)?;
        self.assigned(tokens, start, left, at)
    }

    /// What a variable is given: an expression, or values in braces [JLS 8.3, 10.6].
    #[tactic(auto, unfolding(crate::specs::Reading::initializer))]
    pub(crate) fn initializer(
        &self,
        tokens: &[Symbol],
        start: usize,
    ) -> Result<(Boxed<ExprTree>, usize), Stop>
        requires { Nests self.now.bounds (F.pre self.now.nested) (F.post self.now.nested) }
        ensures { Gives result (over_nested spec.initializer tokens.now self.now.bounds (text_of tokens.now) start) }
    {
        if sees(tokens, start, Terminal::LeftBrace) {
            let (values, at) = self.values(tokens, start)?;
            let tree = ExprTree::Braces {
                at: place(tokens, start),
                values,
            };
            return self.node(tree, at);
        }
        self.expression(tokens, start)
    }

    /// A part.
    #[tactic(auto, unfolding(crate::specs::Reading::rule))]
    pub(crate) fn rule(
        &self,
        tokens: &[Symbol],
        start: usize,
        part: Part,
    ) -> Result<(Boxed<ExprTree>, usize), Stop>
        requires { Nests self.now.bounds (F.pre self.now.nested) (F.post self.now.nested) }
        ensures { Gives result (over_nested spec.rule tokens.now self.now.bounds part (text_of tokens.now) start) }
    {
        match part {
            Part::Expression => self.expression(tokens, start),
            Part::Conditional => self.conditional(tokens, start),
            Part::Operand(rank) => self.level(tokens, start, rank),
            Part::Unary => self.unary(tokens, start),
            Part::Plain => self.plain(tokens, start),
            Part::Initializer => self.initializer(tokens, start),
        }
    }
}
