ghost use Rattle.std.specs.Prelude.{◌≡◌, List, None, Some, false};
ghost use Rattle.std.specs.List.{AllByRecursion};
ghost use Rattle.bj_tree.specs.declared.class.Modifier.{Modifier};
ghost use Rattle.bj_rules.specs.declared.misfit.Misfit.{Misfit};
ghost use Rattle.bj_rules.specs.declared.place.Place.{Place};
ghost use Rattle.bj_rules.specs.Modifiers.{AreFit, IsFirst, is_left_out, modifiers_misfit};

/// Where modifiers have no misfit, their place takes each of them, none is repeated, and no two of them exclude each other.
pub fn modifiers_without_misfit_fit()
    ensures { (place : Place) (modifiers : List Modifier) → modifiers_misfit place modifiers ≡ None → AreFit place modifiers }
{}

/// Modifiers have no misfit where their place takes each of them, none is repeated, no two of them exclude each other, and the profile
/// leaves none of them out.
pub fn fit_modifiers_have_no_misfit()
    ensures { (place : Place) (modifiers : List Modifier) → AreFit place modifiers → AllByRecursion (λ (one : Modifier). is_left_out place one.kind ≡ false) modifiers → modifiers_misfit place modifiers ≡ None }
{}

/// The misfit of modifiers is of the first that does not fit those before it, with `Syntax`, or that the profile leaves out, with
/// `Profile`.
pub fn misfits_are_of_the_first_that_does_not_fit()
    ensures { (place : Place) (modifiers : List Modifier) (misfit : Misfit) → modifiers_misfit place modifiers ≡ Some misfit → IsFirst place modifiers misfit }
{}
