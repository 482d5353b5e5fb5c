ghost use Rattle.bj_expr.specs.Reading as spec;
ghost use Rattle.bj_grammar.specs.Given.{text_of, place_of, Gives};
ghost use Rattle.bj_expr.specs.Given.{Nests, over_nested};

use crate::operators::literal_kind;
use crate::reader::Reader;
use crate::sets::{is_literal, literal_at};
use crate::{Bounds, Part};
use bj_base::JText;
use bj_expr_tree::ExprTree;
use bj_grammar::{Stop, Symbol, Terminal, place, sees, units, word};
use sqlite_items::Boxed;
use std::alloc::Global;

impl<
    F: Fn(Global, &[Symbol], Bounds, usize, Part) -> Result<(Boxed<ExprTree>, usize), Stop>,
> Reader<F> {
    /// A name, or a call where a parenthesis comes next.
    #[tactic(auto, unfolding(crate::specs::Reading::named))]
    pub(crate) fn named(
        &self,
        tokens: &[Symbol],
        start: usize,
        name: JText,
        at: usize,
    ) -> Result<(Boxed<ExprTree>, usize), Stop>
        requires { Nests self.now.bounds (F.pre self.now.nested) (F.post self.now.nested) }
        ensures { Gives result (over_nested spec.named tokens.now self.now.bounds start name (text_of tokens.now) at) }
    {
        if sees(tokens, at, Terminal::LeftParen) {
            let (args, at) = self.arguments(tokens, at)?;
            let tree = ExprTree::Call {
                at: place(tokens, start),
                name,
                args,
            };
            return self.node(tree, at);
        }
        let tree = ExprTree::Name {
            at: place(tokens, start),
            name,
        };
        self.node(tree, at)
    }

    /// A field or a call by `super`.
    #[tactic(auto, unfolding(crate::specs::Reading::of_super))]
    pub(crate) fn of_super(
        &self,
        tokens: &[Symbol],
        start: usize,
        name: JText,
        at: usize,
    ) -> Result<(Boxed<ExprTree>, usize), Stop>
        requires { Nests self.now.bounds (F.pre self.now.nested) (F.post self.now.nested) }
        ensures { Gives result (over_nested spec.of_super tokens.now self.now.bounds start name (text_of tokens.now) at) }
    {
        if sees(tokens, at, Terminal::LeftParen) {
            let (args, at) = self.arguments(tokens, at)?;
            let tree = ExprTree::SuperCall {
                at: place(tokens, start),
                name,
                args,
            };
            return self.node(tree, at);
        }
        let tree = ExprTree::SuperField {
            at: place(tokens, start),
            name,
        };
        self.node(tree, at)
    }

    /// An expression in parentheses [JLS 15.8.5].
    #[tactic(auto, unfolding(crate::specs::Reading::parenthesized))]
    pub(crate) fn parenthesized(
        &self,
        tokens: &[Symbol],
        start: usize,
        at: usize,
    ) -> Result<(Boxed<ExprTree>, usize), Stop>
        requires { Nests self.now.bounds (F.pre self.now.nested) (F.post self.now.nested) }
        ensures { Gives result (over_nested spec.parenthesized tokens.now self.now.bounds start (text_of tokens.now) at) }
    {
        let at = word(tokens, at, Terminal::LeftParen)?;
        let (inner, at) = self.nest(tokens, at, Part::Expression)?;
        let at = word(tokens, at, Terminal::RightParen)?;
        let tree = ExprTree::Paren {
            at: place(tokens, start),
            inner,
        };
        self.node(tree, at)
    }

    /// `super`, a dot and a name [JLS 15.11.2, 15.12].
    #[tactic(auto, unfolding(crate::specs::Reading::by_super))]
    pub(crate) fn by_super(
        &self,
        tokens: &[Symbol],
        start: usize,
        at: usize,
    ) -> Result<(Boxed<ExprTree>, usize), Stop>
        requires { Nests self.now.bounds (F.pre self.now.nested) (F.post self.now.nested) }
        ensures { Gives result (over_nested spec.by_super tokens.now self.now.bounds start (text_of tokens.now) at) }
    {
        let at = word(tokens, at, Terminal::Super)?;
        let name_at = word(tokens, at, Terminal::Dot)?;
        let name = units(self.alloc, tokens, name_at)?;
        let at = word(tokens, name_at, Terminal::Word)?;
        self.of_super(tokens, start, name, at)
    }

    /// A name, or a call [JLS 6.5, 15.12].
    #[tactic(auto, unfolding(crate::specs::Reading::by_name))]
    pub(crate) fn by_name(
        &self,
        tokens: &[Symbol],
        start: usize,
        at: usize,
    ) -> Result<(Boxed<ExprTree>, usize), Stop>
        requires { Nests self.now.bounds (F.pre self.now.nested) (F.post self.now.nested) }
        ensures { Gives result (over_nested spec.by_name tokens.now self.now.bounds start (text_of tokens.now) at) }
    {
        let name = units(self.alloc, tokens, at)?;
        let at = word(tokens, at, Terminal::Word)?;
        self.named(tokens, start, name, at)
    }

    /// A literal [JLS 15.8.1].
    #[tactic(auto, unfolding(crate::specs::Reading::literal))]
    pub(crate) fn literal(
        &self,
        tokens: &[Symbol],
        start: usize,
        at: usize,
    ) -> Result<(Boxed<ExprTree>, usize), Stop>
        requires { Nests self.now.bounds (F.pre self.now.nested) (F.post self.now.nested) }
        ensures { Gives result (over_nested spec.literal tokens.now self.now.bounds start (text_of tokens.now) at) }
    {
        let text = units(self.alloc, tokens, at)?;
        let (found, at) = literal_at(tokens, at)?;
        let tree = ExprTree::Literal {
            at: place(tokens, start),
            kind: literal_kind(found),
            text,
        };
        self.node(tree, at)
    }

    /// A primary expression, without what is selected from it [JLS 15.8].
    #[tactic(auto, unfolding(crate::specs::Reading::primary))]
    pub(crate) fn primary(
        &self,
        tokens: &[Symbol],
        start: usize,
    ) -> Result<(Boxed<ExprTree>, usize), Stop>
        requires { Nests self.now.bounds (F.pre self.now.nested) (F.post self.now.nested) }
        ensures { Gives result (over_nested spec.primary tokens.now self.now.bounds (text_of tokens.now) start) }
    {
        if is_literal(tokens, start) {
            return self.literal(tokens, start, start);
        }
        if sees(tokens, start, Terminal::This) {
            let at = word(tokens, start, Terminal::This)?;
            let tree = ExprTree::This {
                at: place(tokens, start),
            };
            return self.node(tree, at);
        }
        if sees(tokens, start, Terminal::LeftParen) {
            return self.parenthesized(tokens, start, start);
        }
        if sees(tokens, start, Terminal::Super) {
            return self.by_super(tokens, start, start);
        }
        if sees(tokens, start, Terminal::New) {
            return self.creation(tokens, start, start);
        }
        self.by_name(tokens, start, start)
    }
}
