ghost use Rattle.std.specs.Prelude.{◌≡◌, ℕ, Bool, true, false, None, Some, is_some};
ghost use Rattle.bj_core.specs.declared.program.Program.{Program};
ghost use Rattle.bj_core.specs.declared.action.Action.{Action};
ghost use Rattle.bj_core.specs.declared.action.Answer.{Answer};
ghost use Rattle.bj_core.specs.declared.action.Done.{Done};
ghost use Rattle.bj_core.specs.declared.action.Action.TheVariants.{End};
ghost use Rattle.bj_core.specs.declared.action.Answer.TheVariants as answer;
ghost use Rattle.bj_eval.specs.Allowed.{Allows};
ghost use Rattle.bj_store.specs.Kept.{IsKept};
ghost use Rattle.bj_store.specs.State.{State, lives, with_lives};
ghost use Rattle.bj_store.specs.React.{react, Answered};
ghost use Rattle.bj_machine.specs.Shown.{HasFields, IsLiving, end_in};

use bj_store::{
    ends_are_answered, fields_are_of_objects, fields_have_their_kind, initializations_are_answered,
    kept_states_stay_kept, made_objects_are_of_their_class, threads_stay,
};

/// What the store answers to an action that is no end is an answer that a thread takes.
pub fn answers_are_allowed()
    ensures { (p : Program) (s t : State) (a : Action) (x : Answer) → HasFields p → IsKept p s → end_in (Some a) ≡ None → react p s 1 a ≡ Answered x t → Allows p a x }
{
    fields_are_of_objects();
    fields_have_their_kind();
    made_objects_are_of_their_class();
    initializations_are_answered();
}

/// The main thread lives in the store from the beginning of its term to the end, and the store stays kept.
pub fn stores_know_what_lives()
    ensures begins { (p : Program) (s : State) (b : Bool) → IsLiving p s b → IsLiving p (with_lives s 1 true) true }
    ensures goes { (p : Program) (s t : State) (b : Bool) (a : Action) (x : Answer) → IsLiving p s b → end_in (Some a) ≡ None → react p s 1 a ≡ Answered x t → IsLiving p t b }
    ensures ends { (p : Program) (s t : State) (b : Bool) (done : Done) (x : Answer) → IsLiving p s b → react p s 1 (End done) ≡ Answered x t → IsLiving p t false }
{
    kept_states_stay_kept();
    threads_stay();
    ends_are_answered();
}
