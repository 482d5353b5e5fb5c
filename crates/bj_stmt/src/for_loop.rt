ghost use Rattle.bj_grammar.specs.Given.{text_of, place_of, Gives};
ghost use Rattle.bj_stmt.specs.Given.{Nests, over_nested, evaluations_of, for_rest};
ghost use Rattle.bj_stmt.specs.Reading as spec;

use crate::StmtPart;
use crate::names::{maybe_final, name_at};
use crate::nodes::{node, one_local};
use crate::reader::Reader;
use crate::tokens::declares;
use crate::values::{all_values, maybe_value, value};
use crate::variables::variables_behind;
use bj_expr::{Bounds, type_at};
use bj_grammar::{Stop, Symbol, Terminal, out_of_turns, place, sees, word};
use bj_tree::{ExprTree, ExprTrees, NamedPlace, StmtTree, StmtTrees, TypeTree};
use sqlite_items::{Boxed, Items};
use std::alloc::Global;

/// What a `for` that declares begins with, up to the first name.
#[derive(Drop)]
pub(crate) struct ForHead {
    /// The place of the declaration's first token.
    declared: usize,
    /// Whether `final` stands first.
    is_final: bool,
    /// The type.
    of: TypeTree,
    /// The place of the name.
    named: usize,
    /// The name.
    name: NamedPlace,
}

impl<
    F: Fn(Global, &[Symbol], Bounds, usize, StmtPart) -> Result<(Boxed<StmtTree>, usize), Stop>,
> Reader<F> {
    /// The statement of a `for`, behind its closing parenthesis.
    fn for_body(
        &self,
        tokens: &[Symbol],
        start: usize,
        init: StmtTrees,
        test: Option<Boxed<ExprTree>>,
        update: ExprTrees,
        at: usize,
    ) -> Result<(Boxed<StmtTree>, usize), Stop>
        requires { Nests self.now.bounds (F.pre self.now.nested) (F.post self.now.nested) }
        ensures { Gives result (for_rest tokens.now self.now.bounds start init test update (text_of tokens.now) at) }
    {
        let at = word(tokens, at, Terminal::RightParen)?;
        let (body, at) = self.nest(tokens, at, StmtPart::Statement)?;
        let tree = StmtTree::For {
            at: place(tokens, start),
            init,
            test,
            update,
            body,
        };
        node(self.alloc, tree, at)
    }

    /// The rest of a `for`, behind what it begins with.
    #[tactic(auto, unfolding(crate::specs::Reading::for_tail))]
    fn for_tail(
        &self,
        tokens: &[Symbol],
        start: usize,
        init: StmtTrees,
        at: usize,
    ) -> Result<(Boxed<StmtTree>, usize), Stop>
        requires { Nests self.now.bounds (F.pre self.now.nested) (F.post self.now.nested) }
        ensures { Gives result (over_nested spec.for_tail tokens.now self.now.bounds start init (text_of tokens.now) at) }
    {
        let at = word(tokens, at, Terminal::Semicolon)?;
        let (test, at) = maybe_value(self.alloc, tokens, self.bounds, at)?;
        let at = word(tokens, at, Terminal::Semicolon)?;
        let (update, at) = all_values(self.alloc, tokens, self.bounds, at)?;
        self.for_body(tokens, start, init, test, update, at)
    }

    /// A comma and an expression as a statement, after others.
    #[tactic(auto, unfolding(crate::specs::Reading::next_evaluation))]
    fn next_evaluation(
        &self,
        tokens: &[Symbol],
        mut found: StmtTrees,
        at: usize,
    ) -> Result<(StmtTrees, usize), Stop>
        requires { Nests self.now.bounds (F.pre self.now.nested) (F.post self.now.nested) }
        ensures { Gives result (over_nested spec.next_evaluation tokens.now self.now.bounds found (text_of tokens.now) at) }
    {
        let at = word(tokens, at, Terminal::Comma)?;
        let (next, at) = self.nest(tokens, at, StmtPart::Evaluation)?;
        found.push(next.into_inner())?;
        Ok((found, at))
    }

    /// The expressions as statements after a first one, each after a comma.
    fn more_evaluations(
        &self,
        tokens: &[Symbol],
        mut found: StmtTrees,
        mut at: usize,
    ) -> Result<(StmtTrees, usize), Stop>
        requires { Nests self.now.bounds (F.pre self.now.nested) (F.post self.now.nested) }
        ensures { Gives result (evaluations_of tokens.now self.now.bounds found (text_of tokens.now) at) }
    {
        for _turn in 0..self.bounds.most {
            if !sees(tokens, at, Terminal::Comma) {
                return Ok((found, at));
            }
            (found, at) = self.next_evaluation(tokens, found, at)?;
        }
        if sees(tokens, at, Terminal::Comma) {
            return Err(out_of_turns());
        }
        Ok((found, at))
    }

    /// Expressions as statements, with commas between them.
    #[tactic(auto, unfolding(crate::specs::Reading::evaluations))]
    fn evaluations(&self, tokens: &[Symbol], at: usize) -> Result<(StmtTrees, usize), Stop>
        requires { Nests self.now.bounds (F.pre self.now.nested) (F.post self.now.nested) }
        ensures { Gives result (over_nested spec.evaluations tokens.now self.now.bounds (text_of tokens.now) at) }
    {
        let (first, at) = self.nest(tokens, at, StmtPart::Evaluation)?;
        let mut found = Items::new(self.alloc);
        found.push(first.into_inner())?;
        self.more_evaluations(tokens, found, at)
    }

    /// A `for` over an array, behind its variable [JLS 14.14.2].
    #[tactic(auto, unfolding(crate::specs::Reading::for_each))]
    fn for_each(
        &self,
        tokens: &[Symbol],
        start: usize,
        head: ForHead,
        at: usize,
    ) -> Result<(Boxed<StmtTree>, usize), Stop>
        requires { Nests self.now.bounds (F.pre self.now.nested) (F.post self.now.nested) }
        ensures { Gives result (over_nested spec.for_each tokens.now self.now.bounds start head.is_final head.of head.name (text_of tokens.now) at) }
    {
        let at = word(tokens, at, Terminal::Colon)?;
        let (over, at) = value(self.alloc, tokens, self.bounds, at)?;
        let at = word(tokens, at, Terminal::RightParen)?;
        let (body, at) = self.nest(tokens, at, StmtPart::Statement)?;
        let ForHead {
            is_final,
            of,
            name,
            ..
        } = head;
        let tree = StmtTree::ForEach {
            at: place(tokens, start),
            is_final,
            of,
            name,
            over,
            body,
        };
        node(self.alloc, tree, at)
    }

    /// A `for` that begins with no declaration [JLS 14.14.1].
    #[tactic(auto, unfolding(crate::specs::Reading::for_evaluated))]
    fn for_evaluated(
        &self,
        tokens: &[Symbol],
        start: usize,
        at: usize,
    ) -> Result<(Boxed<StmtTree>, usize), Stop>
        requires { Nests self.now.bounds (F.pre self.now.nested) (F.post self.now.nested) }
        ensures { Gives result (over_nested spec.for_evaluated tokens.now self.now.bounds start (text_of tokens.now) at) }
    {
        if sees(tokens, at, Terminal::Semicolon) {
            return self.for_tail(tokens, start, Items::new(self.alloc), at);
        }
        let (init, at) = self.evaluations(tokens, at)?;
        self.for_tail(tokens, start, init, at)
    }

    /// A `for` that begins with a declaration, behind the first name: the declaration and its variables are nodes above their
    /// initializers.
    fn for_variables(
        &self,
        tokens: &[Symbol],
        start: usize,
        head: ForHead,
        at: usize,
    ) -> Result<(Boxed<StmtTree>, usize), Stop>
        requires { Nests self.now.bounds (F.pre self.now.nested) (F.post self.now.nested) }
        ensures { Gives result (over_nested spec.for_variables tokens.now self.now.bounds start head.declared head.is_final head.of head.name head.named (text_of tokens.now) at) }
    {
        if self.bounds.room == 0 {
            return Err(Stop::Deep(place(tokens, head.declared)));
        }
        if self.bounds.room == 1 {
            return Err(Stop::Deep(place(tokens, head.named)));
        }
        let below = Bounds {
            most: self.bounds.most,
            room: self.bounds.room - 2,
        };
        let ForHead {
            declared,
            is_final,
            of,
            named,
            name,
        } = head;
        let (variables, at) = variables_behind(self.alloc, tokens, below, named, name.name, at)?;
        let init = one_local(self.alloc, place(tokens, declared), is_final, of, variables)?;
        self.for_tail(tokens, start, init, at)
    }

    /// A `for` that begins with a declaration, behind the type.
    #[tactic(auto, unfolding(crate::specs::Reading::for_named))]
    fn for_named(
        &self,
        tokens: &[Symbol],
        start: usize,
        declared: usize,
        is_final: bool,
        of: TypeTree,
        named: usize,
    ) -> Result<(Boxed<StmtTree>, usize), Stop>
        requires { Nests self.now.bounds (F.pre self.now.nested) (F.post self.now.nested) }
        ensures { Gives result (over_nested spec.for_named tokens.now self.now.bounds start declared is_final of (text_of tokens.now) named) }
    {
        let (name, at) = name_at(self.alloc, tokens, named)?;
        let head = ForHead {
            declared,
            is_final,
            of,
            named,
            name,
        };
        if sees(tokens, at, Terminal::Colon) {
            return self.for_each(tokens, start, head, at);
        }
        self.for_variables(tokens, start, head, at)
    }

    /// A `for` that begins with a declaration.
    #[tactic(auto, unfolding(crate::specs::Reading::for_declared))]
    fn for_declared(
        &self,
        tokens: &[Symbol],
        start: usize,
        declared: usize,
    ) -> Result<(Boxed<StmtTree>, usize), Stop>
        requires { Nests self.now.bounds (F.pre self.now.nested) (F.post self.now.nested) }
        ensures { Gives result (over_nested spec.for_declared tokens.now self.now.bounds start (text_of tokens.now) declared) }
    {
        let (is_final, at) = maybe_final(tokens, declared);
        let (of, at) = type_at(self.alloc, tokens, self.bounds.most, at)?;
        self.for_named(tokens, start, declared, is_final, of, at)
    }

    /// A `for` [JLS 14.14].
    #[tactic(auto, unfolding(crate::specs::Reading::for_loop))]
    pub(crate) fn for_loop(
        &self,
        tokens: &[Symbol],
        start: usize,
        at: usize,
    ) -> Result<(Boxed<StmtTree>, usize), Stop>
        requires { Nests self.now.bounds (F.pre self.now.nested) (F.post self.now.nested) }
        ensures { Gives result (over_nested spec.for_loop tokens.now self.now.bounds start (text_of tokens.now) at) }
    {
        let at = word(tokens, at, Terminal::For)?;
        let at = word(tokens, at, Terminal::LeftParen)?;
        if declares(tokens, at) {
            return self.for_declared(tokens, start, at);
        }
        self.for_evaluated(tokens, start, at)
    }
}
