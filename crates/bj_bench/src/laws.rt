//! Laws of the names on the bench, on a function that does nothing.

ghost use Rattle.std.specs.Prelude.{◌≡◌, ◌≢◌, ℕ, List, None, Some};
ghost use Rattle.bj_core.specs.declared.action.Action.TheVariants.{End};
ghost use Rattle.bj_core.specs.declared.action.Done.TheVariants.{Value};
ghost use Rattle.bj_core.specs.declared.types.Val.{Val};
ghost use Rattle.bj_bench.specs.declared.names.BoundName.{BoundName};
ghost use Rattle.bj_bench.specs.Names.{names_after, value_in, AreApart};

/// Where a term that binds a name ends with a value, the name stands for it, the others stand for what they stood for, and names that differ go on to differ.
pub fn bound_names_stand_for_their_objects()
    ensures same { (names : List BoundName) (name : List ℕ) (v : Val) → value_in names name ≡ None → value_in (names_after (Some name) (Some (End (Value v))) names) name ≡ Some v }
    ensures others { (names : List BoundName) (name other : List ℕ) (v : Val) → name ≢ other → value_in (names_after (Some name) (Some (End (Value v))) names) other ≡ value_in names other }
    ensures apart { (names : List BoundName) (name : List ℕ) (v : Val) → AreApart names → value_in names name ≡ None → AreApart (names_after (Some name) (Some (End (Value v))) names) }
{}
