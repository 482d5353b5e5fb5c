//! Laws of the definitions, on functions that do nothing.

ghost use Rattle.std.specs.Prelude.{◌≡◌, ◌≤◌, ℕ, ℤ, List, ◌∷◌, [], None, Some, false, length, map, slice_get, true};
ghost use Rattle.bj_core.specs.declared.action.Action.TheVariants as act;
ghost use Rattle.bj_core.specs.declared.action.Answer.{Answer};
ghost use Rattle.bj_core.specs.declared.action.Answer.TheVariants as answer;
ghost use Rattle.bj_core.specs.declared.action.Done.TheVariants as done;
ghost use Rattle.bj_core.specs.declared.frame.Term.{Term};
ghost use Rattle.bj_core.specs.declared.program.Body.TheVariants.{Code};
ghost use Rattle.bj_core.specs.declared.program.Class.{Class};
ghost use Rattle.bj_core.specs.declared.program.Method.{Method};
ghost use Rattle.bj_core.specs.declared.program.Program.{Program};
ghost use Rattle.bj_core.specs.declared.types.Const.TheVariants as constant;
ghost use Rattle.bj_core.specs.declared.types.Val.{Val};
ghost use Rattle.bj_core.specs.declared.types.Val.TheVariants as val;
ghost use Rattle.bj_base.specs.declared.span.Span.{Span};
ghost use Rattle.bj_core.specs.declared.types.Ty.{Ty};
ghost use Rattle.bj_core.specs.declared.types.Ty.TheVariants as ty;
ghost use Rattle.bj_core.specs.declared.tree.Expr.{Expr};
ghost use Rattle.bj_core.specs.declared.tree.Expr.TheVariants as expr;
ghost use Rattle.bj_core.specs.declared.tree.Stmt.{Stmt};
ghost use Rattle.bj_core.specs.declared.tree.Stmt.TheVariants.{Expression, Return};
ghost use Rattle.bj_eval.specs.Frames.{activation, frame_of, invocation_of_term, start_of, no_class};
ghost use Rattle.bj_eval.specs.Allowed.{IsAllowed};
ghost use Rattle.bj_eval.specs.Evaluation.{line_in};
ghost use Rattle.bj_eval.specs.Next.{Asked, next_of};
ghost use Rattle.bj_eval.specs.Routines.{is_constructor};
ghost use Rattle.bj_eval.specs.Terms.{IsOwn, IsValue, ItWants, StandsFor};
ghost use Rattle.bj_eval.specs.Typed.{HasTy, IsTyped, scope_of};
ghost use Rattle.bj_eval.specs.Values.{value_of};

/// A term that is an expression with a value first reaches the step point of its one line.
pub fn point_comes_first()
    ensures { (program : Program) (limit : ℕ) (term : Term) (at : Span) (x : Expr) → term.body ≡ Return at (Some x) →
        next_of program limit term [] ≡ Some (record { action = act.Point (record { class = no_class; line = 1; depth = 1 }); frames = frame_of invocation_of_term (start_of term) ∷ [] }) }
{}

/// After its step point a term that is an `int` expression, with no names around it, is over, with the value that the JLS gives to the expression.
pub fn value_comes_last()
    ensures { (program : Program) (limit : ℕ) (term : Term) (at : Span) (x : Expr) → term.body ≡ Return at (Some x) → term.scope ≡ [] → HasTy program (scope_of term) x ty.Int →
        (n : ℤ) × (value_of x ≡ Some n) × (next_of program limit term (answer.Done ∷ []) ≡ Some (record { action = act.End (done.Value (val.Int n)); frames = frame_of invocation_of_term (start_of term) ∷ [] })) }
{}

/// A typed term that was given allowed answers never goes wrong: it wants an action, or it is over. At least two frames are
/// needed, since the term may call a body.
pub fn typed_terms_go_on()
    ensures { (program : Program) (limit : ℕ) (term : Term) (answers : List Answer) → 2 ≤ limit → IsTyped program term → IsAllowed program limit term answers → (a : Asked) × (next_of program limit term answers ≡ Some a) }
{}

/// A class that is not of the prelude is initialized before its first object is made [JLS 12.4.1].
pub fn initialization_comes_before_memory()
    ensures { (program : Program) (limit : ℕ) (term : Term) (at : Span) (class constructor : ℕ) (args : List Expr) (c : Class) → IsOwn program class c → IsValue term (expr.New at class constructor args) →
        ItWants program limit term (answer.Done ∷ []) (act.InitBegin class) }
{}

/// Memory for a new object comes before its arguments, whatever they are [JLS 15.9.4].
pub fn memory_comes_before_arguments()
    ensures { (program : Program) (limit : ℕ) (term : Term) (at : Span) (class constructor : ℕ) (args : List Expr) (c : Class) → IsOwn program class c → IsValue term (expr.New at class constructor args) →
        ItWants program limit term (answer.Done ∷ answer.Ready ∷ []) (act.Make class) }
{}

/// Where there is no memory for a new object, what the store says is raised, and the term is over with it [JLS 15.9.4].
pub fn want_of_memory_is_thrown()
    ensures { (program : Program) (limit : ℕ) (term : Term) (at : Span) (class constructor : ℕ) (args : List Expr) (c : Class) (thrown : ℕ) (r : Val) → IsOwn program class c → IsValue term (expr.New at class constructor args) →
        ItWants program limit term (answer.Done ∷ answer.Ready ∷ answer.Thrown thrown ∷ []) (act.Raise thrown None) × ItWants program limit term (answer.Done ∷ answer.Ready ∷ answer.Thrown thrown ∷ answer.Value r ∷ []) (act.End (done.Threw r)) }
{}

/// A field of an object is read, and the value of its expression is what was read [JLS 15.11.1].
pub fn field_has_what_is_read()
    ensures { (program : Program) (limit : ℕ) (term : Term) (at spot : Span) (name slot object : ℕ) (of : Ty) (x : Val) → StandsFor term name (val.Ref object of) → IsValue term (expr.Field at (expr.Local spot name) slot) →
        ItWants program limit term (answer.Done ∷ []) (act.Get (val.Ref object of) slot) × ItWants program limit term (answer.Done ∷ answer.Value x ∷ []) (act.End (done.Value x)) }
{}

/// An assignment to a field writes the value of its right side, and has that value [JLS 15.26.1].
pub fn assignment_has_what_is_written()
    ensures { (program : Program) (limit : ℕ) (term : Term) (at spot place : Span) (name slot object : ℕ) (of : Ty) (n : ℤ) → StandsFor term name (val.Ref object of) →
        IsValue term (expr.SetField at (expr.Local spot name) slot (expr.Const place (constant.Int n))) →
        ItWants program limit term (answer.Done ∷ []) (act.Put (val.Ref object of) slot (val.Int n)) × ItWants program limit term (answer.Done ∷ answer.Done ∷ []) (act.End (done.Value (val.Int n))) }
{}

/// The right side of an assignment to a field is evaluated before the field is written [JLS 15.26.1].
pub fn right_side_comes_before_assignment()
    ensures { (program : Program) (limit : ℕ) (term : Term) (at spot place : Span) (name slot object : ℕ) (of : Ty) (class constructor : ℕ) (args : List Expr) (c : Class) → IsOwn program class c →
        StandsFor term name (val.Ref object of) → IsValue term (expr.SetField at (expr.Local spot name) slot (expr.New place class constructor args)) →
        ItWants program limit term (answer.Done ∷ []) (act.InitBegin class) }
{}

/// A call reaches the step point at the entry of the method's body, in a frame above the caller's, whose parameters have the values of the arguments in their order [JLS 15.12.4.5].
pub fn arguments_are_the_values_of_parameters()
    ensures { (program : Program) (limit : ℕ) (term : Term) (at spot place : Span) (name object class method : ℕ) (ns : List ℤ) (c : Class) (m : Method) (body : Stmt) → 2 ≤ limit →
        slice_get program.classes class ≡ Some c → slice_get c.methods method ≡ Some m → m.body ≡ Code body → StandsFor term name (val.Ref object (ty.Class class)) →
        IsValue term (expr.Virtual at (expr.Local spot name) class method (map (λ n. expr.Const place (constant.Int n)) ns)) →
        next_of program limit term (answer.Done ∷ []) ≡ Some (record {
          action = act.Point (record { class = class; line = m.at.line; depth = 2 });
          frames = frame_of (record { class = class; method = method; this = val.Ref object (ty.Class class) }) (activation m.at.line m.params (map val.Int ns)) ∷ frame_of invocation_of_term (start_of term) ∷ [];
        }) }
{}

/// The value of a call is what the method returns, and the step point of the closing brace is not reached [JLS 14.17, 15.12.4.5].
pub fn call_has_what_is_returned()
    ensures { (program : Program) (limit : ℕ) (term : Term) (at spot place line inside : Span) (name object class method : ℕ) (ns : List ℤ) (n : ℤ) (c : Class) (m : Method) → 2 ≤ limit →
        slice_get program.classes class ≡ Some c → slice_get c.methods method ≡ Some m → m.body ≡ Code (Return line (Some (expr.Const inside (constant.Int n)))) → is_constructor m ≡ false →
        StandsFor term name (val.Ref object (ty.Class class)) → IsValue term (expr.Virtual at (expr.Local spot name) class method (map (λ n. expr.Const place (constant.Int n)) ns)) →
        ItWants program limit term (answer.Done ∷ answer.Done ∷ answer.Done ∷ []) (act.End (done.Value (val.Int n))) }
{}

/// The instance initializers run in the frame of the constructor, after the step point of its entry and before its body [JLS 12.5].
pub fn instance_initializers_come_before_the_body()
    ensures { (program : Program) (limit : ℕ) (term : Term) (at line : Span) (class constructor object : ℕ) (x : Expr) (c : Class) (m : Method) (body : Stmt) → 2 ≤ limit → IsOwn program class c →
        slice_get c.methods constructor ≡ Some m → m.body ≡ Code body → is_constructor m ≡ true → c.instance_start ≡ Expression line x → IsValue term (expr.New at class constructor []) →
        next_of program limit term (answer.Done ∷ answer.Ready ∷ answer.Value (val.Ref object (ty.Class class)) ∷ answer.Done ∷ []) ≡ Some (record {
          action = act.Point (record { class = class; line = line_in class line; depth = 2 });
          frames = frame_of (record { class = class; method = constructor; this = val.Ref object (ty.Class class) }) (activation (line_in class line) m.params []) ∷ frame_of invocation_of_term (start_of term) ∷ [];
        }) }
{}

/// Where the thread has to initialize the class, what does so runs in a frame of its own, whose method is the number of the class's methods [JLS 12.4.2].
pub fn class_is_initialized_in_a_frame()
    ensures { (program : Program) (limit : ℕ) (term : Term) (at line : Span) (class constructor : ℕ) (args : List Expr) (x : Expr) (c : Class) → 2 ≤ limit → IsOwn program class c →
        c.static_start ≡ Expression line x → IsValue term (expr.New at class constructor args) →
        next_of program limit term (answer.Done ∷ answer.Go ∷ []) ≡ Some (record {
          action = act.Point (record { class = class; line = line_in class line; depth = 2 });
          frames = frame_of (record { class = class; method = length c.methods; this = val.Null }) (activation (line_in class line) [] []) ∷ frame_of invocation_of_term (start_of term) ∷ [];
        }) }
{}
