ghost use Rattle.bj_grammar.specs.Given.{text_of, place_of, Gives};
ghost use Rattle.bj_stmt.specs.Given.{Nests, over_nested, block_of};
ghost use Rattle.bj_stmt.specs.Reading as spec;

use crate::StmtPart;
use crate::nodes::{node, one};
use crate::reader::Reader;
use crate::tokens::{inside, is_constructor_call};
use bj_expr::Bounds;
use bj_grammar::{Stop, Symbol, Terminal, out_of_turns, place, word};
use bj_tree::{StmtTree, StmtTrees};
use sqlite_items::{Boxed, Items};
use std::alloc::Global;

impl<
    F: Fn(Global, &[Symbol], Bounds, usize, StmtPart) -> Result<(Boxed<StmtTree>, usize), Stop>,
> Reader<F> {
    /// A statement of a block, after others.
    #[tactic(auto, unfolding(crate::specs::Reading::next_statement))]
    fn next_statement(
        &self,
        tokens: &[Symbol],
        mut found: StmtTrees,
        at: usize,
    ) -> Result<(StmtTrees, usize), Stop>
        requires { Nests self.now.bounds (F.pre self.now.nested) (F.post self.now.nested) }
        ensures { Gives result (over_nested spec.next_statement tokens.now self.now.bounds found (text_of tokens.now) at) }
    {
        let (next, at) = self.nest(tokens, at, StmtPart::BlockStatement)?;
        found.push(next.into_inner())?;
        Ok((found, at))
    }

    /// The statements of a block behind some of them, up to the closing brace.
    fn more_statements(
        &self,
        tokens: &[Symbol],
        mut found: StmtTrees,
        mut at: usize,
    ) -> Result<(StmtTrees, usize), Stop>
        requires { Nests self.now.bounds (F.pre self.now.nested) (F.post self.now.nested) }
        ensures { Gives result (block_of tokens.now self.now.bounds found (text_of tokens.now) at) }
    {
        for _turn in 0..self.bounds.most {
            if !inside(tokens, at) {
                return Ok((found, at));
            }
            (found, at) = self.next_statement(tokens, found, at)?;
        }
        if inside(tokens, at) {
            return Err(out_of_turns());
        }
        Ok((found, at))
    }

    /// The rest of a block, behind some statements of it.
    #[tactic(auto, unfolding(crate::specs::Reading::rest_of_block))]
    fn rest_of_block(
        &self,
        tokens: &[Symbol],
        start: usize,
        found: StmtTrees,
        at: usize,
    ) -> Result<(Boxed<StmtTree>, usize), Stop>
        requires { Nests self.now.bounds (F.pre self.now.nested) (F.post self.now.nested) }
        ensures { Gives result (over_nested spec.rest_of_block tokens.now self.now.bounds start found (text_of tokens.now) at) }
    {
        let (body, end) = self.more_statements(tokens, found, at)?;
        let at = word(tokens, end, Terminal::RightBrace)?;
        let tree = StmtTree::Block {
            at: place(tokens, start),
            body,
            end: place(tokens, end),
        };
        node(self.alloc, tree, at)
    }

    /// A block [JLS 14.2].
    #[tactic(auto, unfolding(crate::specs::Reading::block))]
    pub(crate) fn block(
        &self,
        tokens: &[Symbol],
        start: usize,
    ) -> Result<(Boxed<StmtTree>, usize), Stop>
        requires { Nests self.now.bounds (F.pre self.now.nested) (F.post self.now.nested) }
        ensures { Gives result (over_nested spec.block tokens.now self.now.bounds (text_of tokens.now) start) }
    {
        let at = word(tokens, start, Terminal::LeftBrace)?;
        self.rest_of_block(tokens, start, Items::new(self.alloc), at)
    }

    /// The body of a constructor, which may begin with a call of another [JLS 8.8.7].
    #[tactic(auto, unfolding(crate::specs::Reading::constructor_body))]
    pub(crate) fn constructor_body(
        &self,
        tokens: &[Symbol],
        start: usize,
    ) -> Result<(Boxed<StmtTree>, usize), Stop>
        requires { Nests self.now.bounds (F.pre self.now.nested) (F.post self.now.nested) }
        ensures { Gives result (over_nested spec.constructor_body tokens.now self.now.bounds (text_of tokens.now) start) }
    {
        let at = word(tokens, start, Terminal::LeftBrace)?;
        if is_constructor_call(tokens, at) {
            let (call, at) = self.nest(tokens, at, StmtPart::ConstructorCall)?;
            let found = one(self.alloc, call)?;
            return self.rest_of_block(tokens, start, found, at);
        }
        self.rest_of_block(tokens, start, Items::new(self.alloc), at)
    }
}
