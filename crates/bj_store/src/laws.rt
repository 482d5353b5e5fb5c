ghost use Rattle.std.specs.Prelude.{◌≡◌, ◌≢◌, ◌<◌, ◌⊎◌, ℕ, Bool, List, length, slice_get, Option, Some, None, true, false};
ghost use Rattle.bj_core.specs.declared.program.Program.{Program};
ghost use Rattle.bj_core.specs.declared.limits.Limits.{Limits};
ghost use Rattle.bj_core.specs.declared.types.Ty.{Ty};
ghost use Rattle.bj_core.specs.declared.types.Ty.TheVariants as ty;
ghost use Rattle.bj_core.specs.declared.types.Val.{Val};
ghost use Rattle.bj_core.specs.declared.types.Val.TheVariants as val;
ghost use Rattle.bj_core.specs.declared.action.Action.{Action};
ghost use Rattle.bj_core.specs.declared.action.Action.TheVariants as action;
ghost use Rattle.bj_core.specs.declared.action.Answer.{Answer};
ghost use Rattle.bj_core.specs.declared.action.Done.{Done};
ghost use Rattle.bj_core.specs.declared.action.Piece.{Piece};
ghost use Rattle.bj_core.specs.declared.frame.Point.{Point};
ghost use Rattle.bj_core.specs.declared.action.Answer.TheVariants as answer;
ghost use Rattle.bj_heap.specs.Objects.{own_at};
ghost use Rattle.bj_store.specs.declared.reaction.Block.TheVariants as block;
ghost use Rattle.bj_store.specs.Kept.{IsKept};
ghost use Rattle.bj_store.specs.Kinds.{kind_of};
ghost use Rattle.bj_store.specs.Objects.{first_objects, defaults};
ghost use Rattle.bj_store.specs.State.{State, fresh, lives, with_lives, referred};
ghost use Rattle.bj_store.specs.React.{react, Answered, Blocked};
ghost use Rattle.bj_store.specs.Runs.{Step, Runs};

/// What is put into a field is what any thread next gets from it, and the other fields are as before.
pub fn what_is_put_is_what_is_got()
    ensures same { (p : Program) (s t : State) (thread other : ℕ) (object : Val) (slot : ℕ) (value : Val) → react p s thread (action.Put object slot value) ≡ Answered answer.Done t → lives t other ≡ true → react p t other (action.Get object slot) ≡ Answered (answer.Value value) t }
    ensures others { (p : Program) (s t : State) (thread other : ℕ) (object : Val) (slot : ℕ) (value : Val) (object2 : Val) (slot2 : ℕ) (found : Val) → react p s thread (action.Put object slot value) ≡ Answered answer.Done t → (referred object2 ≢ referred object) ⊎ (slot2 ≢ slot) → react p s other (action.Get object2 slot2) ≡ Answered (answer.Value found) s → react p t other (action.Get object2 slot2) ≡ Answered (answer.Value found) t }
{}

/// An object that is made has a number above those of all objects before it, and it is an object of its type from then
/// on: no number is given twice.
pub fn made_objects_are_new()
    ensures above { (p : Program) (s t : State) (thread class number : ℕ) (of : Ty) → react p s thread (action.Make class) ≡ Answered (answer.Value (val.Ref number of)) t → (k : ℕ) → own_at s.heap.objects k ≢ None → k < number }
    ensures stays { (p : Program) (s t u : State) (thread class number : ℕ) (of : Ty) (steps : List Step) → react p s thread (action.Make class) ≡ Answered (answer.Value (val.Ref number of)) t → Runs p t steps u → own_at u.heap.objects number ≡ Some of }
    ensures rises { (p : Program) (s t u v : State) (thread other class class2 number number2 : ℕ) (of of2 : Ty) (steps : List Step) → react p s thread (action.Make class) ≡ Answered (answer.Value (val.Ref number of)) t → Runs p t steps u → react p u other (action.Make class2) ≡ Answered (answer.Value (val.Ref number2 of2)) v → number < number2 }
{}

/// The four objects of a new store are there, each of its class, whatever was done since. What is raised where the heap
/// is full is thus an object of the store, an OutOfMemoryError.
pub fn first_objects_stay()
    ensures first { (p : Program) (limits : Limits) (s : State) (steps : List Step) (number : ℕ) (of : Ty) → Runs p (fresh p limits) steps s → own_at (first_objects p.classes) number ≡ Some of → own_at s.heap.objects number ≡ Some of }
    ensures spare { (p : Program) (limits : Limits) (s : State) (steps : List Step) → Runs p (fresh p limits) steps s → own_at s.heap.objects 4 ≡ Some (ty.Class s.out_of_memory) }
{}

/// A class is initialized once, by one thread [JLS 12.4.2]: where a thread may go on to initialize it, no thread is ever
/// told so again; the others wait for that thread; and once it has done so, all find the class ready, forever.
pub fn classes_are_initialized_once()
    ensures once { (p : Program) (s t u v : State) (thread other class : ℕ) (steps : List Step) → react p s thread (action.InitBegin class) ≡ Answered answer.Go t → Runs p t steps u → react p u other (action.InitBegin class) ≢ Answered answer.Go v }
    ensures waits { (p : Program) (s t : State) (thread other class : ℕ) → react p s thread (action.InitBegin class) ≡ Answered answer.Go t → other ≢ thread → lives t other ≡ true → react p t other (action.InitBegin class) ≡ Blocked (block.Initializing class thread) }
    ensures again { (p : Program) (s t : State) (thread class : ℕ) → react p s thread (action.InitBegin class) ≡ Answered answer.Go t → react p t thread (action.InitBegin class) ≡ Answered answer.Ready t }
    ensures ready { (p : Program) (s t u : State) (thread other class : ℕ) (steps : List Step) → react p s thread (action.InitEnd class true) ≡ Answered answer.Done t → Runs p t steps u → lives u other ≡ true → react p u other (action.InitBegin class) ≡ Answered answer.Ready u }
{}

/// In a new store each object is of a class, and has that class's fields, each with a value of its kind.
pub fn new_stores_are_kept()
    ensures { (p : Program) (limits : Limits) → IsKept p (fresh p limits) }
{}

/// Whatever is done, each object is of a class, and has that class's fields, each with a value of its kind.
pub fn kept_states_stay_kept()
    ensures acts { (p : Program) (s t : State) (thread : ℕ) (a : Action) (x : Answer) → IsKept p s → react p s thread a ≡ Answered x t → IsKept p t }
    ensures lives { (p : Program) (s : State) (thread : ℕ) (living : Bool) → IsKept p s → IsKept p (with_lives s thread living) }
{}

/// What is got from a field is of the kind of the field's default value [JLS 4.12.5]: an int from an `int` field, and so
/// on. The field is one of the class of the reference that it is read by.
pub fn fields_have_their_kind()
    ensures { (p : Program) (s t : State) (thread object class slot : ℕ) (x : Val) → IsKept p s → react p s thread (action.Get (val.Ref object (ty.Class class)) slot) ≡ Answered (answer.Value x) t → (d : Val) × (slice_get (defaults (length p.classes) p.classes class) slot ≡ Some d) × (kind_of x ≡ kind_of d) }
{}

/// A field is read and written only by a reference to an object of a class. A read answers a value.
pub fn fields_are_of_objects()
    ensures got { (p : Program) (s t : State) (thread : ℕ) (object : Val) (slot : ℕ) (x : Answer) → react p s thread (action.Get object slot) ≡ Answered x t → (n class : ℕ) × (v : Val) × (object ≡ val.Ref n (ty.Class class)) × (x ≡ answer.Value v) }
    ensures put { (p : Program) (s t : State) (thread : ℕ) (object : Val) (slot : ℕ) (value : Val) (x : Answer) → react p s thread (action.Put object slot value) ≡ Answered x t → (n class : ℕ) × (object ≡ val.Ref n (ty.Class class)) × (x ≡ answer.Done) }
{}

/// Which threads live is changed by the end of a term alone: any other action leaves the threads as they are.
pub fn threads_stay()
    ensures { (p : Program) (s t : State) (thread : ℕ) (a : Action) (x : Answer) → ((done : Done) → a ≢ action.End done) → react p s thread a ≡ Answered x t → t.threads ≡ s.threads }
{}

/// The end of a thread's term is answered while the thread lives. It lives no more then, and all else is as before.
pub fn ends_are_answered()
    ensures always { (p : Program) (s : State) (thread : ℕ) (done : Done) → lives s thread ≡ true → react p s thread (action.End done) ≡ Answered answer.Done (with_lives s thread false) }
    ensures only { (p : Program) (s t : State) (thread : ℕ) (done : Done) (x : Answer) → react p s thread (action.End done) ≡ Answered x t → (x ≡ answer.Done) × (t ≡ with_lives s thread false) }
{}

/// What is made is an object of the class, and where there is no room for it the class of what is thrown is told. What is
/// raised is an object in any case.
pub fn made_objects_are_of_their_class()
    ensures made { (p : Program) (s t : State) (thread class : ℕ) (x : Answer) → react p s thread (action.Make class) ≡ Answered x t → ((n : ℕ) × (x ≡ answer.Value (val.Ref n (ty.Class class)))) ⊎ ((k : ℕ) × (x ≡ answer.Thrown k)) }
    ensures raised { (p : Program) (s t : State) (thread class : ℕ) (message : Option Piece) (x : Answer) → react p s thread (action.Raise class message) ≡ Answered x t → (n : ℕ) × (of : Ty) × (x ≡ answer.Value (val.Ref n of)) }
{}

/// A thread that asks for a class's initialization is told that it is over, or to do it. A step point, and the end of an
/// initialization, are done without a value.
pub fn initializations_are_answered()
    ensures begins { (p : Program) (s t : State) (thread class : ℕ) (x : Answer) → react p s thread (action.InitBegin class) ≡ Answered x t → (x ≡ answer.Ready) ⊎ (x ≡ answer.Go) }
    ensures ends { (p : Program) (s t : State) (thread class : ℕ) (ok : Bool) (x : Answer) → react p s thread (action.InitEnd class ok) ≡ Answered x t → x ≡ answer.Done }
    ensures points { (p : Program) (s t : State) (thread : ℕ) (at : Point) (x : Answer) → react p s thread (action.Point at) ≡ Answered x t → x ≡ answer.Done }
{}
