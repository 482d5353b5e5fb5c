ghost use Rattle.bj_grammar.specs.Given.{text_of, place_of, Gives};
ghost use Rattle.bj_stmt.specs.Given.{Nests, over_nested, do_rest};
ghost use Rattle.bj_stmt.specs.Reading as spec;

use crate::StmtPart;
use crate::nodes::node;
use crate::reader::Reader;
use crate::values::value;
use bj_expr::Bounds;
use bj_grammar::{Stop, Symbol, Terminal, place, sees, word};
use bj_tree::{ExprTree, StmtTree};
use sqlite_items::Boxed;
use std::alloc::Global;

impl<
    F: Fn(Global, &[Symbol], Bounds, usize, StmtPart) -> Result<(Boxed<StmtTree>, usize), Stop>,
> Reader<F> {
    /// A `while` [JLS 14.12].
    #[tactic(auto, unfolding(crate::specs::Reading::while_loop, crate::specs::Reading::in_parens))]
    fn while_loop(
        &self,
        tokens: &[Symbol],
        start: usize,
        at: usize,
    ) -> Result<(Boxed<StmtTree>, usize), Stop>
        requires { Nests self.now.bounds (F.pre self.now.nested) (F.post self.now.nested) }
        ensures { Gives result (over_nested spec.while_loop tokens.now self.now.bounds start (text_of tokens.now) at) }
    {
        let at = word(tokens, at, Terminal::While)?;
        let at = word(tokens, at, Terminal::LeftParen)?;
        let (test, at) = value(self.alloc, tokens, self.bounds, at)?;
        let at = word(tokens, at, Terminal::RightParen)?;
        let (body, at) = self.nest(tokens, at, StmtPart::Statement)?;
        let tree = StmtTree::While {
            at: place(tokens, start),
            test,
            body,
        };
        node(self.alloc, tree, at)
    }

    /// The condition of a `do`, behind its statement.
    #[tactic(auto, unfolding(crate::specs::Reading::in_parens))]
    fn do_tail(
        &self,
        tokens: &[Symbol],
        start: usize,
        body: Boxed<StmtTree>,
        at: usize,
    ) -> Result<(Boxed<StmtTree>, usize), Stop>
        requires { Nests self.now.bounds (F.pre self.now.nested) (F.post self.now.nested) }
        ensures { Gives result (do_rest tokens.now self.now.bounds start body (text_of tokens.now) at) }
    {
        let at = word(tokens, at, Terminal::While)?;
        let at = word(tokens, at, Terminal::LeftParen)?;
        let (test, at) = value(self.alloc, tokens, self.bounds, at)?;
        let at = word(tokens, at, Terminal::RightParen)?;
        let at = word(tokens, at, Terminal::Semicolon)?;
        let tree = StmtTree::Do {
            at: place(tokens, start),
            body,
            test,
        };
        node(self.alloc, tree, at)
    }

    /// A `do` [JLS 14.13].
    #[tactic(auto, unfolding(crate::specs::Reading::do_loop))]
    fn do_loop(
        &self,
        tokens: &[Symbol],
        start: usize,
        at: usize,
    ) -> Result<(Boxed<StmtTree>, usize), Stop>
        requires { Nests self.now.bounds (F.pre self.now.nested) (F.post self.now.nested) }
        ensures { Gives result (over_nested spec.do_loop tokens.now self.now.bounds start (text_of tokens.now) at) }
    {
        let at = word(tokens, at, Terminal::Do)?;
        let (body, at) = self.nest(tokens, at, StmtPart::Statement)?;
        self.do_tail(tokens, start, body, at)
    }

    /// A loop.
    #[tactic(auto, unfolding(crate::specs::Reading::looping))]
    pub(crate) fn looping(
        &self,
        tokens: &[Symbol],
        start: usize,
        at: usize,
    ) -> Result<(Boxed<StmtTree>, usize), Stop>
        requires { Nests self.now.bounds (F.pre self.now.nested) (F.post self.now.nested) }
        ensures { Gives result (over_nested spec.looping tokens.now self.now.bounds start (text_of tokens.now) at) }
    {
        if sees(tokens, at, Terminal::While) {
            return self.while_loop(tokens, start, at);
        }
        if sees(tokens, at, Terminal::Do) {
            return self.do_loop(tokens, start, at);
        }
        self.for_loop(tokens, start, at)
    }
}
