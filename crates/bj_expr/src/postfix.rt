ghost use Rattle.bj_expr.specs.Reading as spec;
ghost use Rattle.bj_grammar.specs.Given.{text_of, place_of, Gives};
ghost use Rattle.bj_expr.specs.Given.{Nests, over_nested, steps_of};

use crate::operators::step_op;
use crate::reader::Reader;
use crate::sets::{is_step, step_at};
use crate::{Bounds, Part};
use bj_expr_tree::ExprTree;
use bj_grammar::{Stop, Symbol, out_of_turns, place};
use sqlite_items::Boxed;
use std::alloc::Global;

impl<
    F: Fn(Global, &[Symbol], Bounds, usize, Part) -> Result<(Boxed<ExprTree>, usize), Stop>,
> Reader<F> {
    /// `++` or `--` behind an operand.
    #[tactic(auto, unfolding(crate::specs::Reading::postfix_step))]
    pub(crate) fn postfix_step(
        &self,
        tokens: &[Symbol],
        start: usize,
        operand: Boxed<ExprTree>,
        at: usize,
    ) -> Result<(Boxed<ExprTree>, usize), Stop>
        requires { Nests self.now.bounds (F.pre self.now.nested) (F.post self.now.nested) }
        ensures { Gives result (over_nested spec.postfix_step tokens.now self.now.bounds start operand (text_of tokens.now) at) }
    {
        let (op, at) = step_at(tokens, at)?;
        let (operand, at) = self.limited(tokens, operand, at)?;
        let tree = ExprTree::Postfix {
            at: place(tokens, start),
            op: step_op(op),
            operand,
        };
        self.node(tree, at)
    }

    /// Each `++` and `--` behind an operand.
    pub(crate) fn postfix_steps(
        &self,
        tokens: &[Symbol],
        start: usize,
        mut operand: Boxed<ExprTree>,
        mut at: usize,
    ) -> Result<(Boxed<ExprTree>, usize), Stop>
        requires { Nests self.now.bounds (F.pre self.now.nested) (F.post self.now.nested) }
        ensures { Gives result (steps_of self.now.bounds tokens.now start operand (text_of tokens.now) at) }
    {
        for _turn in 0..self.bounds.most {
            if !is_step(tokens, at) {
                return Ok((operand, at));
            }
            (operand, at) = self.postfix_step(tokens, start, operand, at)?;
        }
        if is_step(tokens, at) {
            return Err(out_of_turns());
        }
        Ok((operand, at))
    }

    /// A postfix expression [JLS 15.14].
    #[tactic(auto, unfolding(crate::specs::Reading::postfix))]
    pub(crate) fn postfix(
        &self,
        tokens: &[Symbol],
        start: usize,
    ) -> Result<(Boxed<ExprTree>, usize), Stop>
        requires { Nests self.now.bounds (F.pre self.now.nested) (F.post self.now.nested) }
        ensures { Gives result (over_nested spec.postfix tokens.now self.now.bounds (text_of tokens.now) start) }
    {
        let (first, at) = self.selected(tokens, start)?;
        self.postfix_steps(tokens, start, first, at)
    }
}
