//! Laws of the definitions, on functions that do nothing.

ghost use Rattle.std.specs.Prelude.{◌≡◌, ◌≤◌, List, ◌++◌, ◌∷◌, length};
ghost use Rattle.bj_core.specs.declared.entry.Entry.{Entry};
ghost use Rattle.bj_history.specs.declared.opening.Opening.{Opening};
ghost use Rattle.bj_history.specs.History.{Legal, Fits, after, lines, printed, written};
ghost use Rattle.bj_bench.specs.Names.{AreApart};

/// In a legal history each entry may come where it stands, after the entries before it.
pub fn each_entry_may_come()
    ensures { (o : Opening) (later front : List Entry) (e : Entry) → Legal o (later ++ e ∷ front) → Fits o front e }
{}

/// What a history prints is what its entries print, each at its place, in order.
pub fn written_is_the_printing_of_each()
    ensures { (o : Opening) (e : Entry) (front : List Entry) → written o (e ∷ front) ≡ written o front ++ printed o (after o front) e }
{}

/// A legal history has no more actions than the limit.
pub fn acts_are_within_the_limit()
    ensures { (o : Opening) (log : List Entry) → Legal o log → (after o log).world.acts ≤ o.limits.acts }
{}

/// In a legal history the names on the bench differ, and are a thousand at most.
pub fn names_stand_for_one_object()
    ensures apart { (o : Opening) (log : List Entry) → Legal o log → AreApart (after o log).names }
    ensures few { (o : Opening) (log : List Entry) → Legal o log → length (after o log).names ≤ 1000 }
{}
