ghost use Rattle.std.specs.Prelude.{◌≡◌};
ghost use Rattle.bj_grammar.specs.Given.{text_of, place_of, Gives};
ghost use Rattle.bj_stmt.specs.Given.{Nests, over_nested, catches_of, catch_rest};
ghost use Rattle.bj_stmt.specs.Reading as spec;

use crate::StmtPart;
use crate::names::{maybe_final, name_at};
use crate::nodes::{node, one_type};
use crate::reader::Reader;
use crate::tokens::is_class_lock;
use crate::values::value;
use bj_expr::{Bounds, type_at};
use bj_grammar::{Stop, Symbol, Terminal, out_of_turns, place, sees, word};
use bj_tree::{NamedPlace, StmtTree, StmtTrees, TypeTree};
use sqlite_items::{Boxed, Items};
use std::alloc::Global;

/// Whether there is no statement.
fn is_empty(trees: &StmtTrees) -> bool
    ensures { result ≡ spec.is_empty trees.now }
{
    match trees.as_slice() {
        [] => true,
        _ => false,
    }
}

impl<
    F: Fn(Global, &[Symbol], Bounds, usize, StmtPart) -> Result<(Boxed<StmtTree>, usize), Stop>,
> Reader<F> {
    /// The class of a `synchronized` and its block, behind the opening parenthesis.
    #[tactic(auto, unfolding(crate::specs::Reading::class_lock))]
    fn class_lock(
        &self,
        tokens: &[Symbol],
        start: usize,
        at: usize,
    ) -> Result<(Boxed<StmtTree>, usize), Stop>
        requires { Nests self.now.bounds (F.pre self.now.nested) (F.post self.now.nested) }
        ensures { Gives result (over_nested spec.class_lock tokens.now self.now.bounds start (text_of tokens.now) at) }
    {
        let (class, at) = name_at(self.alloc, tokens, at)?;
        let at = word(tokens, at, Terminal::Dot)?;
        let at = word(tokens, at, Terminal::Class)?;
        let at = word(tokens, at, Terminal::RightParen)?;
        let (body, at) = self.nest(tokens, at, StmtPart::Block)?;
        let tree = StmtTree::SynchronizedClass {
            at: place(tokens, start),
            class,
            body,
        };
        node(self.alloc, tree, at)
    }

    /// The object of a `synchronized` and its block, behind the opening parenthesis.
    #[tactic(auto, unfolding(crate::specs::Reading::object_lock))]
    fn object_lock(
        &self,
        tokens: &[Symbol],
        start: usize,
        at: usize,
    ) -> Result<(Boxed<StmtTree>, usize), Stop>
        requires { Nests self.now.bounds (F.pre self.now.nested) (F.post self.now.nested) }
        ensures { Gives result (over_nested spec.object_lock tokens.now self.now.bounds start (text_of tokens.now) at) }
    {
        let (lock, at) = value(self.alloc, tokens, self.bounds, at)?;
        let at = word(tokens, at, Terminal::RightParen)?;
        let (body, at) = self.nest(tokens, at, StmtPart::Block)?;
        let tree = StmtTree::Synchronized {
            at: place(tokens, start),
            lock,
            body,
        };
        node(self.alloc, tree, at)
    }

    /// A `synchronized` [JLS 14.19].
    #[tactic(auto, unfolding(crate::specs::Reading::locked))]
    fn locked(
        &self,
        tokens: &[Symbol],
        start: usize,
        at: usize,
    ) -> Result<(Boxed<StmtTree>, usize), Stop>
        requires { Nests self.now.bounds (F.pre self.now.nested) (F.post self.now.nested) }
        ensures { Gives result (over_nested spec.locked tokens.now self.now.bounds start (text_of tokens.now) at) }
    {
        let at = word(tokens, at, Terminal::Synchronized)?;
        let at = word(tokens, at, Terminal::LeftParen)?;
        if is_class_lock(tokens, at) {
            return self.class_lock(tokens, start, at);
        }
        self.object_lock(tokens, start, at)
    }

    /// The name of a catch and its block, behind the type.
    fn catch_tail(
        &self,
        tokens: &[Symbol],
        start: usize,
        is_final: bool,
        of: TypeTree,
        at: usize,
    ) -> Result<(Boxed<StmtTree>, usize), Stop>
        requires { Nests self.now.bounds (F.pre self.now.nested) (F.post self.now.nested) }
        ensures { Gives result (catch_rest tokens.now self.now.bounds start is_final of (text_of tokens.now) at) }
    {
        let (name, at) = name_at(self.alloc, tokens, at)?;
        let at = word(tokens, at, Terminal::RightParen)?;
        let (body, at) = self.nest(tokens, at, StmtPart::Block)?;
        let types = one_type(self.alloc, of)?;
        let tree = StmtTree::Catch {
            at: place(tokens, start),
            is_final,
            types,
            name,
            body,
        };
        node(self.alloc, tree, at)
    }

    /// A catch of a `try` [JLS 14.20].
    #[tactic(auto, unfolding(crate::specs::Reading::catch))]
    pub(crate) fn catch(
        &self,
        tokens: &[Symbol],
        start: usize,
    ) -> Result<(Boxed<StmtTree>, usize), Stop>
        requires { Nests self.now.bounds (F.pre self.now.nested) (F.post self.now.nested) }
        ensures { Gives result (over_nested spec.catch tokens.now self.now.bounds (text_of tokens.now) start) }
    {
        let at = word(tokens, start, Terminal::Catch)?;
        let at = word(tokens, at, Terminal::LeftParen)?;
        let (is_final, at) = maybe_final(tokens, at);
        let (of, at) = type_at(self.alloc, tokens, self.bounds.most, at)?;
        self.catch_tail(tokens, start, is_final, of, at)
    }

    /// A catch, after others.
    #[tactic(auto, unfolding(crate::specs::Reading::next_catch))]
    fn next_catch(
        &self,
        tokens: &[Symbol],
        mut found: StmtTrees,
        at: usize,
    ) -> Result<(StmtTrees, usize), Stop>
        requires { Nests self.now.bounds (F.pre self.now.nested) (F.post self.now.nested) }
        ensures { Gives result (over_nested spec.next_catch tokens.now self.now.bounds found (text_of tokens.now) at) }
    {
        let (next, at) = self.nest(tokens, at, StmtPart::Catch)?;
        found.push(next.into_inner())?;
        Ok((found, at))
    }

    /// The catches of a `try` behind some of them.
    fn more_catches(
        &self,
        tokens: &[Symbol],
        mut found: StmtTrees,
        mut at: usize,
    ) -> Result<(StmtTrees, usize), Stop>
        requires { Nests self.now.bounds (F.pre self.now.nested) (F.post self.now.nested) }
        ensures { Gives result (catches_of tokens.now self.now.bounds found (text_of tokens.now) at) }
    {
        for _turn in 0..self.bounds.most {
            if !sees(tokens, at, Terminal::Catch) {
                return Ok((found, at));
            }
            (found, at) = self.next_catch(tokens, found, at)?;
        }
        if sees(tokens, at, Terminal::Catch) {
            return Err(out_of_turns());
        }
        Ok((found, at))
    }

    /// The catches of a `try`, which may be none.
    #[tactic(auto, unfolding(crate::specs::Reading::catches))]
    fn catches(&self, tokens: &[Symbol], at: usize) -> Result<(StmtTrees, usize), Stop>
        requires { Nests self.now.bounds (F.pre self.now.nested) (F.post self.now.nested) }
        ensures { Gives result (over_nested spec.catches tokens.now self.now.bounds (text_of tokens.now) at) }
    {
        self.more_catches(tokens, Items::new(self.alloc), at)
    }

    /// `finally` and its block [JLS 14.20.2].
    #[tactic(auto, unfolding(crate::specs::Reading::finally))]
    fn finally(
        &self,
        tokens: &[Symbol],
        start: usize,
        body: Boxed<StmtTree>,
        catches: StmtTrees,
        at: usize,
    ) -> Result<(Boxed<StmtTree>, usize), Stop>
        requires { Nests self.now.bounds (F.pre self.now.nested) (F.post self.now.nested) }
        ensures { Gives result (over_nested spec.finally tokens.now self.now.bounds start body catches (text_of tokens.now) at) }
    {
        let at = word(tokens, at, Terminal::Finally)?;
        let (finally, at) = self.nest(tokens, at, StmtPart::Block)?;
        let tree = StmtTree::TryFinally {
            at: place(tokens, start),
            body,
            catches,
            finally,
        };
        node(self.alloc, tree, at)
    }

    /// What follows the catches of a `try`, which has a catch or a `finally`.
    #[tactic(auto, unfolding(crate::specs::Reading::try_tail))]
    fn try_tail(
        &self,
        tokens: &[Symbol],
        start: usize,
        body: Boxed<StmtTree>,
        catches: StmtTrees,
        at: usize,
    ) -> Result<(Boxed<StmtTree>, usize), Stop>
        requires { Nests self.now.bounds (F.pre self.now.nested) (F.post self.now.nested) }
        ensures { Gives result (over_nested spec.try_tail tokens.now self.now.bounds start body catches (text_of tokens.now) at) }
    {
        if is_empty(&catches) {
            return self.finally(tokens, start, body, catches, at);
        }
        if sees(tokens, at, Terminal::Finally) {
            return self.finally(tokens, start, body, catches, at);
        }
        let tree = StmtTree::Try {
            at: place(tokens, start),
            body,
            catches,
        };
        node(self.alloc, tree, at)
    }

    /// A `try` [JLS 14.20].
    #[tactic(auto, unfolding(crate::specs::Reading::tried))]
    fn tried(
        &self,
        tokens: &[Symbol],
        start: usize,
        at: usize,
    ) -> Result<(Boxed<StmtTree>, usize), Stop>
        requires { Nests self.now.bounds (F.pre self.now.nested) (F.post self.now.nested) }
        ensures { Gives result (over_nested spec.tried tokens.now self.now.bounds start (text_of tokens.now) at) }
    {
        let at = word(tokens, at, Terminal::Try)?;
        let (body, at) = self.nest(tokens, at, StmtPart::Block)?;
        let (catches, at) = self.catches(tokens, at)?;
        self.try_tail(tokens, start, body, catches, at)
    }

    /// A `synchronized` or a `try`.
    #[tactic(auto, unfolding(crate::specs::Reading::guarding))]
    pub(crate) fn guarding(
        &self,
        tokens: &[Symbol],
        start: usize,
        at: usize,
    ) -> Result<(Boxed<StmtTree>, usize), Stop>
        requires { Nests self.now.bounds (F.pre self.now.nested) (F.post self.now.nested) }
        ensures { Gives result (over_nested spec.guarding tokens.now self.now.bounds start (text_of tokens.now) at) }
    {
        if sees(tokens, at, Terminal::Synchronized) {
            return self.locked(tokens, start, at);
        }
        self.tried(tokens, start, at)
    }
}
