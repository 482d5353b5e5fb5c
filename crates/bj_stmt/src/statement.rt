ghost use Rattle.bj_grammar.specs.Given.{text_of, place_of, Gives};
ghost use Rattle.bj_stmt.specs.Given.{Nests, over_nested, worded_of};
ghost use Rattle.bj_stmt.specs.Reading as spec;

use crate::StmtPart;
use crate::evaluation::{closed, evaluate, evaluation};
use crate::labels::{case_label, constructor_call, default_label, label};
use crate::leaving::leaving;
use crate::nodes::node;
use crate::reader::Reader;
use crate::tokens::{branches, declares, guards, is_labelled, leaves, loops};
use crate::variables::declaration;
use bj_expr::Bounds;
use bj_grammar::{Stop, Symbol, Terminal, place, sees, units, word};
use bj_tree::StmtTree;
use sqlite_items::Boxed;
use std::alloc::Global;

impl<
    F: Fn(Global, &[Symbol], Bounds, usize, StmtPart) -> Result<(Boxed<StmtTree>, usize), Stop>,
> Reader<F> {
    /// A labelled statement [JLS 14.7].
    #[tactic(auto, unfolding(crate::specs::Reading::labelled))]
    fn labelled(
        &self,
        tokens: &[Symbol],
        start: usize,
        at: usize,
    ) -> Result<(Boxed<StmtTree>, usize), Stop>
        requires { Nests self.now.bounds (F.pre self.now.nested) (F.post self.now.nested) }
        ensures { Gives result (over_nested spec.labelled tokens.now self.now.bounds start (text_of tokens.now) at) }
    {
        let label = units(self.alloc, tokens, at)?;
        let at = word(tokens, at, Terminal::Word)?;
        let at = word(tokens, at, Terminal::Colon)?;
        let (body, at) = self.nest(tokens, at, StmtPart::Statement)?;
        let tree = StmtTree::Labelled {
            at: place(tokens, start),
            label,
            body,
        };
        node(self.alloc, tree, at)
    }

    /// `;` [JLS 14.6].
    #[tactic(auto, unfolding(crate::specs::Reading::empty))]
    fn empty(
        &self,
        tokens: &[Symbol],
        start: usize,
        at: usize,
    ) -> Result<(Boxed<StmtTree>, usize), Stop>
        requires { Nests self.now.bounds (F.pre self.now.nested) (F.post self.now.nested) }
        ensures { Gives result (over_nested spec.empty tokens.now self.now.bounds start (text_of tokens.now) at) }
    {
        let at = word(tokens, at, Terminal::Semicolon)?;
        let tree = StmtTree::Empty {
            at: place(tokens, start),
        };
        node(self.alloc, tree, at)
    }

    /// A statement that begins with a keyword of its own, a label or an expression.
    fn worded(&self, tokens: &[Symbol], start: usize) -> Result<(Boxed<StmtTree>, usize), Stop>
        requires { Nests self.now.bounds (F.pre self.now.nested) (F.post self.now.nested) }
        ensures { Gives result (worded_of tokens.now self.now.bounds (text_of tokens.now) start) }
    {
        if branches(tokens, start) {
            return self.branching(tokens, start, start);
        }
        if loops(tokens, start) {
            return self.looping(tokens, start, start);
        }
        if leaves(tokens, start) {
            return leaving(self.alloc, tokens, self.bounds, start, start);
        }
        if guards(tokens, start) {
            return self.guarding(tokens, start, start);
        }
        if is_labelled(tokens, start) {
            return self.labelled(tokens, start, start);
        }
        evaluate(self.alloc, tokens, self.bounds, start)
    }

    /// A statement that may be the body of another [JLS 14.5].
    #[tactic(auto, unfolding(crate::specs::Reading::statement))]
    fn statement(&self, tokens: &[Symbol], start: usize) -> Result<(Boxed<StmtTree>, usize), Stop>
        requires { Nests self.now.bounds (F.pre self.now.nested) (F.post self.now.nested) }
        ensures { Gives result (over_nested spec.statement tokens.now self.now.bounds (text_of tokens.now) start) }
    {
        if sees(tokens, start, Terminal::LeftBrace) {
            return self.block(tokens, start);
        }
        if sees(tokens, start, Terminal::Semicolon) {
            return self.empty(tokens, start, start);
        }
        self.worded(tokens, start)
    }

    /// A declaration of variables with its semicolon [JLS 14.4].
    #[tactic(auto, unfolding(crate::specs::Reading::local))]
    fn local(&self, tokens: &[Symbol], start: usize) -> Result<(Boxed<StmtTree>, usize), Stop>
        requires { Nests self.now.bounds (F.pre self.now.nested) (F.post self.now.nested) }
        ensures { Gives result (over_nested spec.local tokens.now self.now.bounds (text_of tokens.now) start) }
    {
        let (tree, at) = declaration(self.alloc, tokens, self.bounds, start)?;
        closed(tokens, tree, at)
    }

    /// A statement of a block [JLS 14.2].
    #[tactic(auto, unfolding(crate::specs::Reading::block_statement))]
    fn block_statement(
        &self,
        tokens: &[Symbol],
        start: usize,
    ) -> Result<(Boxed<StmtTree>, usize), Stop>
        requires { Nests self.now.bounds (F.pre self.now.nested) (F.post self.now.nested) }
        ensures { Gives result (over_nested spec.block_statement tokens.now self.now.bounds (text_of tokens.now) start) }
    {
        if declares(tokens, start) {
            return self.local(tokens, start);
        }
        self.statement(tokens, start)
    }

    /// A label or a statement of a `switch` [JLS 14.11].
    #[tactic(auto, unfolding(crate::specs::Reading::member))]
    fn member(&self, tokens: &[Symbol], start: usize) -> Result<(Boxed<StmtTree>, usize), Stop>
        requires { Nests self.now.bounds (F.pre self.now.nested) (F.post self.now.nested) }
        ensures { Gives result (over_nested spec.member tokens.now self.now.bounds (text_of tokens.now) start) }
    {
        if sees(tokens, start, Terminal::Case) {
            return case_label(self.alloc, tokens, self.bounds, start, start);
        }
        if sees(tokens, start, Terminal::Default) {
            return default_label(self.alloc, tokens, self.bounds, start, start);
        }
        self.block_statement(tokens, start)
    }

    /// A part.
    #[tactic(auto, unfolding(crate::specs::Reading::rule))]
    pub(crate) fn rule(
        &self,
        tokens: &[Symbol],
        at: usize,
        part: StmtPart,
    ) -> Result<(Boxed<StmtTree>, usize), Stop>
        requires { Nests self.now.bounds (F.pre self.now.nested) (F.post self.now.nested) }
        ensures { Gives result (over_nested spec.rule tokens.now self.now.bounds part (text_of tokens.now) at) }
    {
        match part {
            StmtPart::Statement => self.statement(tokens, at),
            StmtPart::BlockStatement => self.block_statement(tokens, at),
            StmtPart::Block => self.block(tokens, at),
            StmtPart::Member => self.member(tokens, at),
            StmtPart::Label => label(self.alloc, tokens, self.bounds, at),
            StmtPart::Catch => self.catch(tokens, at),
            StmtPart::Evaluation => evaluation(self.alloc, tokens, self.bounds, at),
            StmtPart::ConstructorCall => constructor_call(self.alloc, tokens, self.bounds, at),
            StmtPart::ConstructorBody => self.constructor_body(tokens, at),
        }
    }
}
