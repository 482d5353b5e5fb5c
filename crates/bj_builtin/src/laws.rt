//! Laws of the built-in program, on functions that do nothing.

ghost use Rattle.std.specs.Prelude.{◌≡◌, ◌≢◌, ℕ, [], ◌∷◌, length, map, None, Some, true, false, slice_get, codes};
ghost use Rattle.bj_core.specs.declared.frame.Term.{Term};
ghost use Rattle.bj_core.specs.declared.program.Class.{Class};
ghost use Rattle.bj_core.specs.declared.program.Field.{Field};
ghost use Rattle.bj_base.specs.declared.span.Span.{Span};
ghost use Rattle.bj_core.specs.declared.types.Ty.TheVariants as ty;
ghost use Rattle.bj_core.specs.declared.types.Val.TheVariants as val;
ghost use Rattle.bj_core.specs.declared.tree.Expr.{Expr};
ghost use Rattle.bj_eval.specs.Fields.{field_at, fields_to};
ghost use Rattle.bj_eval.specs.Routines.{is_constructor, is_ready};
ghost use Rattle.bj_eval.specs.Terms.{StandsFor};
ghost use Rattle.bj_eval.specs.Typed.{HasTy, IsProgram, IsTyped, method_at, scope_of};
ghost use Rattle.bj_builtin.specs.declared.program.TheConstants.{CELL, CELL_ADD, CELL_GET, CELL_INIT};
ghost use Rattle.bj_builtin.specs.Builtin.{builtin as spec_builtin, cell_class, n_field, init_method, add_method, get_method};
ghost use Rattle.bj_builtin.specs.Console.{new_cell, call_add, call_get};

/// The built-in program is typed: so are the bodies of `Cell`, and those of `add` and `get` end with a `return`.
pub fn builtin_is_a_program()
    ensures { IsProgram spec_builtin }
{}

/// Each field of the built-in program has a value: none is of the type void.
pub fn no_field_is_void()
    ensures { (class slot : ℕ) (c : Class) (f : Field) → slice_get spec_builtin.classes class ≡ Some c → slice_get c.fields slot ≡ Some f → f.ty ≢ ty.Void }
{}

/// The classes have these names, in this order; each is directly below Object, but for Object itself; and all but `Cell`
/// are of the prelude, and have no members.
pub fn classes_stand_in_order()
    ensures names { map (λ c. c.name) spec_builtin.classes ≡ codes "Object" ∷ codes "Thread" ∷ codes "PrintStream" ∷ codes "InputStream" ∷ codes "OutOfMemoryError" ∷ codes "Cell" ∷ [] }
    ensures above { map (λ c. c.above) spec_builtin.classes ≡ None ∷ Some 0 ∷ Some 0 ∷ Some 0 ∷ Some 0 ∷ Some 0 ∷ [] }
    ensures prelude { map (λ c. c.is_prelude) spec_builtin.classes ≡ true ∷ true ∷ true ∷ true ∷ true ∷ false ∷ [] }
    ensures bare { (class : ℕ) (c : Class) → slice_get spec_builtin.classes class ≡ Some c → c.is_prelude ≡ true → (c.fields ≡ []) × (c.methods ≡ []) }
{}

/// `Cell` has the number 5 and is not initialized from the start. Its objects have the field `n` alone, and its methods
/// have the numbers that a console line names.
pub fn cell_has_its_members()
    ensures number { CELL ≡ 5 }
    ensures class { slice_get spec_builtin.classes CELL ≡ Some cell_class }
    ensures ready { is_ready spec_builtin CELL ≡ false }
    ensures fields { fields_to (length spec_builtin.classes) spec_builtin.classes CELL ≡ n_field ∷ [] }
    ensures field { field_at spec_builtin CELL 0 ≡ Some n_field }
    ensures methods { cell_class.methods ≡ init_method ∷ add_method ∷ get_method ∷ [] }
    ensures constructor { method_at spec_builtin CELL CELL_INIT ≡ Some init_method }
    ensures add { method_at spec_builtin CELL CELL_ADD ≡ Some add_method }
    ensures get { method_at spec_builtin CELL CELL_GET ≡ Some get_method }
    ensures constructs { is_constructor init_method ≡ true }
    ensures adds { is_constructor add_method ≡ false }
    ensures gets { is_constructor get_method ≡ false }
{}

/// `new Cell(x)` gives a Cell where `x` is an `int` [JLS 15.9].
pub fn new_cells_are_typed()
    ensures { (term : Term) (at : Span) (x : Expr) → term.body ≡ new_cell at x → term.gives ≡ ty.Class 5 → HasTy spec_builtin (scope_of term) x ty.Int → IsTyped spec_builtin term }
{}

/// `c.add(x)` and `c.get()` give an `int` where `c` stands for an object of `Cell` and `x` is an `int` [JLS 15.12].
pub fn calls_of_cells_are_typed()
    ensures adds { (term : Term) (at : Span) (c object : ℕ) (x : Expr) → StandsFor term c (val.Ref object (ty.Class 5)) → term.body ≡ call_add at c x → term.gives ≡ ty.Int → HasTy spec_builtin (scope_of term) x ty.Int → IsTyped spec_builtin term }
    ensures gets { (term : Term) (at : Span) (c object : ℕ) → StandsFor term c (val.Ref object (ty.Class 5)) → term.body ≡ call_get at c → term.gives ≡ ty.Int → IsTyped spec_builtin term }
{}
