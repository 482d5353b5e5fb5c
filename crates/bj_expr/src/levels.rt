ghost use Rattle.bj_grammar.specs.Reader.{Found, and_then};
ghost use Rattle.bj_expr.specs.declared.part.Part.TheVariants as part;
ghost use Rattle.bj_expr.specs.Grammar as grammar;
ghost use Rattle.bj_expr.specs.Reading as spec;
ghost use Rattle.bj_grammar.specs.Given.{text_of, place_of, Gives};
ghost use Rattle.bj_expr.specs.Given.{Nests, over_nested, part_of, operations_of};
ghost use Rattle.bj_expr_tree.specs.declared.expr.ExprTree.TheVariants as trees;

use crate::operators::binary_op;
use crate::reader::Reader;
use crate::sets::{goes_on, is_relational, op_at};
use crate::types::type_at;
use crate::{Bounds, Part};
use bj_expr_tree::ExprTree;
use bj_grammar::{Stop, Symbol, Terminal, out_of_turns, place, sees, word};
use sqlite_items::Boxed;
use std::alloc::Global;

impl<
    F: Fn(Global, &[Symbol], Bounds, usize, Part) -> Result<(Boxed<ExprTree>, usize), Stop>,
> Reader<F> {
    /// The type, after `instanceof`.
    fn of_type(
        &self,
        tokens: &[Symbol],
        start: usize,
        value: Boxed<ExprTree>,
        at: usize,
    ) -> Result<(Boxed<ExprTree>, usize), Stop>
        ensures { Gives result (and_then (spec.type_at (place_of tokens.now) self.now.bounds.most (text_of tokens.now) at) (λ ty j. Found (trees.InstanceOf (place_of tokens.now start) value ty) j)) }
    {
        let (of, at) = type_at(self.alloc, tokens, self.bounds.most, at)?;
        let tree = ExprTree::InstanceOf {
            at: place(tokens, start),
            value,
            of,
        };
        self.node(tree, at)
    }

    /// `instanceof` and its type [JLS 15.20.2].
    #[tactic(auto, unfolding(crate::specs::Reading::instance))]
    pub(crate) fn instance(
        &self,
        tokens: &[Symbol],
        start: usize,
        value: Boxed<ExprTree>,
        at: usize,
    ) -> Result<(Boxed<ExprTree>, usize), Stop>
        requires { Nests self.now.bounds (F.pre self.now.nested) (F.post self.now.nested) }
        ensures { Gives result (over_nested spec.instance tokens.now self.now.bounds start value (text_of tokens.now) at) }
    {
        let at = word(tokens, at, Terminal::InstanceOf)?;
        let (value, at) = self.limited(tokens, value, at)?;
        self.of_type(tokens, start, value, at)
    }

    /// An expression with operators of the lowest ranks, so many of them.
    pub(crate) fn level(
        &self,
        tokens: &[Symbol],
        start: usize,
        rank: u8,
    ) -> Result<(Boxed<ExprTree>, usize), Stop>
        requires { Nests self.now.bounds (F.pre self.now.nested) (F.post self.now.nested) }
        ensures { Gives result (over_nested spec.level tokens.now self.now.bounds rank (text_of tokens.now) start) }
    {
        if rank == 0 {
            return self.unary(tokens, start);
        }
        let (left, at) = self.level(tokens, start, rank - 1)?;
        self.operations(tokens, start, rank - 1, left, at)
    }

    /// The right operand, after an operator of the rank.
    fn right(
        &self,
        tokens: &[Symbol],
        start: usize,
        rank: u8,
        op: Terminal,
        left: Boxed<ExprTree>,
        at: usize,
    ) -> Result<(Boxed<ExprTree>, usize), Stop>
        requires { Nests self.now.bounds (F.pre self.now.nested) (F.post self.now.nested) }
        ensures { Gives result (and_then (part_of tokens.now self.now.bounds (part.Operand rank) (text_of tokens.now) at) (λ r j. Found (trees.Binary (place_of tokens.now start) (grammar.binary_op op) left r) j)) }
    {
        let (right, at) = self.nest(tokens, at, Part::Operand(rank))?;
        let tree = ExprTree::Binary {
            at: place(tokens, start),
            op: binary_op(op),
            left,
            right,
        };
        self.node(tree, at)
    }

    /// An operator of the rank and its right operand, after a left one [JLS 15.17 to 15.24].
    #[tactic(auto, unfolding(crate::specs::Reading::binary))]
    pub(crate) fn binary(
        &self,
        tokens: &[Symbol],
        start: usize,
        rank: u8,
        left: Boxed<ExprTree>,
        at: usize,
    ) -> Result<(Boxed<ExprTree>, usize), Stop>
        requires { Nests self.now.bounds (F.pre self.now.nested) (F.post self.now.nested) }
        ensures { Gives result (over_nested spec.binary tokens.now self.now.bounds rank start left (text_of tokens.now) at) }
    {
        let (op, at) = op_at(tokens, at, rank)?;
        let (left, at) = self.limited(tokens, left, at)?;
        self.right(tokens, start, rank, op, left, at)
    }

    /// What goes on with an operator of the rank, after a left operand.
    #[tactic(auto, unfolding(crate::specs::Reading::operation))]
    pub(crate) fn operation(
        &self,
        tokens: &[Symbol],
        start: usize,
        rank: u8,
        left: Boxed<ExprTree>,
        at: usize,
    ) -> Result<(Boxed<ExprTree>, usize), Stop>
        requires { Nests self.now.bounds (F.pre self.now.nested) (F.post self.now.nested) }
        ensures { Gives result (over_nested spec.operation tokens.now self.now.bounds rank start left (text_of tokens.now) at) }
    {
        if is_relational(rank) {
            if sees(tokens, at, Terminal::InstanceOf) {
                return self.instance(tokens, start, left, at);
            }
            return self.binary(tokens, start, rank, left, at);
        }
        self.binary(tokens, start, rank, left, at)
    }

    /// The operators of a rank, from the left.
    pub(crate) fn operations(
        &self,
        tokens: &[Symbol],
        start: usize,
        rank: u8,
        mut left: Boxed<ExprTree>,
        mut at: usize,
    ) -> Result<(Boxed<ExprTree>, usize), Stop>
        requires { Nests self.now.bounds (F.pre self.now.nested) (F.post self.now.nested) }
        ensures { Gives result (operations_of self.now.bounds tokens.now rank start left (text_of tokens.now) at) }
    {
        for _turn in 0..self.bounds.most {
            if !goes_on(tokens, at, rank) {
                return Ok((left, at));
            }
            (left, at) = self.operation(tokens, start, rank, left, at)?;
        }
        if goes_on(tokens, at, rank) {
            return Err(out_of_turns());
        }
        Ok((left, at))
    }
}
