ghost use Rattle.bj_grammar.specs.Given.{text_of, place_of, Gives};
ghost use Rattle.bj_stmt.specs.Given.{Nests, over_nested, members_of, otherwise};
ghost use Rattle.bj_stmt.specs.Reading as spec;

use crate::StmtPart;
use crate::nodes::node;
use crate::reader::Reader;
use crate::tokens::inside;
use crate::values::value;
use bj_expr::Bounds;
use bj_grammar::{Stop, Symbol, Terminal, out_of_turns, place, sees, word};
use bj_tree::{ExprTree, StmtTree, StmtTrees};
use sqlite_items::{Boxed, Items};
use std::alloc::Global;

impl<
    F: Fn(Global, &[Symbol], Bounds, usize, StmtPart) -> Result<(Boxed<StmtTree>, usize), Stop>,
> Reader<F> {
    /// `else` and its statement, behind an `if` [JLS 14.9.2].
    fn choice_else(
        &self,
        tokens: &[Symbol],
        start: usize,
        test: Boxed<ExprTree>,
        body: Boxed<StmtTree>,
        at: usize,
    ) -> Result<(Boxed<StmtTree>, usize), Stop>
        requires { Nests self.now.bounds (F.pre self.now.nested) (F.post self.now.nested) }
        ensures { Gives result (otherwise tokens.now self.now.bounds start test body (text_of tokens.now) at) }
    {
        let at = word(tokens, at, Terminal::Else)?;
        let (other, at) = self.nest(tokens, at, StmtPart::Statement)?;
        let tree = StmtTree::IfElse {
            at: place(tokens, start),
            test,
            body,
            other,
        };
        node(self.alloc, tree, at)
    }

    /// What follows the statement of an `if`: an `else` belongs to it.
    #[tactic(auto, unfolding(crate::specs::Reading::choice_tail))]
    fn choice_tail(
        &self,
        tokens: &[Symbol],
        start: usize,
        test: Boxed<ExprTree>,
        body: Boxed<StmtTree>,
        at: usize,
    ) -> Result<(Boxed<StmtTree>, usize), Stop>
        requires { Nests self.now.bounds (F.pre self.now.nested) (F.post self.now.nested) }
        ensures { Gives result (over_nested spec.choice_tail tokens.now self.now.bounds start test body (text_of tokens.now) at) }
    {
        if sees(tokens, at, Terminal::Else) {
            return self.choice_else(tokens, start, test, body, at);
        }
        let tree = StmtTree::If {
            at: place(tokens, start),
            test,
            body,
        };
        node(self.alloc, tree, at)
    }

    /// An `if` [JLS 14.9].
    #[tactic(auto, unfolding(crate::specs::Reading::choice, crate::specs::Reading::in_parens))]
    fn choice(
        &self,
        tokens: &[Symbol],
        start: usize,
        at: usize,
    ) -> Result<(Boxed<StmtTree>, usize), Stop>
        requires { Nests self.now.bounds (F.pre self.now.nested) (F.post self.now.nested) }
        ensures { Gives result (over_nested spec.choice tokens.now self.now.bounds start (text_of tokens.now) at) }
    {
        let at = word(tokens, at, Terminal::If)?;
        let at = word(tokens, at, Terminal::LeftParen)?;
        let (test, at) = value(self.alloc, tokens, self.bounds, at)?;
        let at = word(tokens, at, Terminal::RightParen)?;
        let (body, at) = self.nest(tokens, at, StmtPart::Statement)?;
        self.choice_tail(tokens, start, test, body, at)
    }

    /// A label or a statement of a `switch`, after others.
    #[tactic(auto, unfolding(crate::specs::Reading::next_member))]
    fn next_member(
        &self,
        tokens: &[Symbol],
        mut found: StmtTrees,
        at: usize,
    ) -> Result<(StmtTrees, usize), Stop>
        requires { Nests self.now.bounds (F.pre self.now.nested) (F.post self.now.nested) }
        ensures { Gives result (over_nested spec.next_member tokens.now self.now.bounds found (text_of tokens.now) at) }
    {
        let (next, at) = self.nest(tokens, at, StmtPart::Member)?;
        found.push(next.into_inner())?;
        Ok((found, at))
    }

    /// The members of a `switch` behind a first label, up to the closing brace.
    fn more_members(
        &self,
        tokens: &[Symbol],
        mut found: StmtTrees,
        mut at: usize,
    ) -> Result<(StmtTrees, usize), Stop>
        requires { Nests self.now.bounds (F.pre self.now.nested) (F.post self.now.nested) }
        ensures { Gives result (members_of tokens.now self.now.bounds found (text_of tokens.now) at) }
    {
        for _turn in 0..self.bounds.most {
            if !inside(tokens, at) {
                return Ok((found, at));
            }
            (found, at) = self.next_member(tokens, found, at)?;
        }
        if inside(tokens, at) {
            return Err(out_of_turns());
        }
        Ok((found, at))
    }

    /// The members of a `switch`, the first of which is a label; they may be none.
    #[tactic(auto, unfolding(crate::specs::Reading::members))]
    fn members(&self, tokens: &[Symbol], at: usize) -> Result<(StmtTrees, usize), Stop>
        requires { Nests self.now.bounds (F.pre self.now.nested) (F.post self.now.nested) }
        ensures { Gives result (over_nested spec.members tokens.now self.now.bounds (text_of tokens.now) at) }
    {
        let mut found = Items::new(self.alloc);
        if sees(tokens, at, Terminal::RightBrace) {
            return Ok((found, at));
        }
        let (first, at) = self.nest(tokens, at, StmtPart::Label)?;
        found.push(first.into_inner())?;
        self.more_members(tokens, found, at)
    }

    /// What stands between the braces of a `switch`, with them.
    #[tactic(auto, unfolding(crate::specs::Reading::switched))]
    fn switched(
        &self,
        tokens: &[Symbol],
        start: usize,
        value: Boxed<ExprTree>,
        at: usize,
    ) -> Result<(Boxed<StmtTree>, usize), Stop>
        requires { Nests self.now.bounds (F.pre self.now.nested) (F.post self.now.nested) }
        ensures { Gives result (over_nested spec.switched tokens.now self.now.bounds start value (text_of tokens.now) at) }
    {
        let at = word(tokens, at, Terminal::LeftBrace)?;
        let (members, at) = self.members(tokens, at)?;
        let at = word(tokens, at, Terminal::RightBrace)?;
        let tree = StmtTree::Switch {
            at: place(tokens, start),
            value,
            members,
        };
        node(self.alloc, tree, at)
    }

    /// A `switch` [JLS 14.11].
    #[tactic(auto, unfolding(crate::specs::Reading::switch, crate::specs::Reading::in_parens))]
    fn switch(
        &self,
        tokens: &[Symbol],
        start: usize,
        at: usize,
    ) -> Result<(Boxed<StmtTree>, usize), Stop>
        requires { Nests self.now.bounds (F.pre self.now.nested) (F.post self.now.nested) }
        ensures { Gives result (over_nested spec.switch tokens.now self.now.bounds start (text_of tokens.now) at) }
    {
        let at = word(tokens, at, Terminal::Switch)?;
        let at = word(tokens, at, Terminal::LeftParen)?;
        let (value, at) = value(self.alloc, tokens, self.bounds, at)?;
        let at = word(tokens, at, Terminal::RightParen)?;
        self.switched(tokens, start, value, at)
    }

    /// An `if` or a `switch`.
    #[tactic(auto, unfolding(crate::specs::Reading::branching))]
    pub(crate) fn branching(
        &self,
        tokens: &[Symbol],
        start: usize,
        at: usize,
    ) -> Result<(Boxed<StmtTree>, usize), Stop>
        requires { Nests self.now.bounds (F.pre self.now.nested) (F.post self.now.nested) }
        ensures { Gives result (over_nested spec.branching tokens.now self.now.bounds start (text_of tokens.now) at) }
    {
        if sees(tokens, at, Terminal::If) {
            return self.choice(tokens, start, at);
        }
        self.switch(tokens, start, at)
    }
}
