ghost use Rattle.std.specs.Prelude.{◌≡◌, ◌∷◌, [], IfOk};
ghost use Rattle.bj_core.specs.declared.tree.Stmt.TheVariants.{Expression};
ghost use Rattle.bj_builtin.specs.Builtin.{n_field as spec_n_field, read_n as spec_read_n, assign_n as spec_assign_n, return_n as spec_return_n, parameter as spec_parameter, plain_method as spec_plain_method, init_body as spec_init_body, init_method as spec_init_method, sum as spec_sum, add_body as spec_add_body, add_method as spec_add_method, get_body as spec_get_body, get_method as spec_get_method, cell_class as spec_cell_class};

use crate::parts::{block_of_one, block_of_two, no_start, one_name, spot};
use bj_core::{
    Access, Body, Class, Expr, Field, Fields, Marks, Method, Methods, Name, Names, NoMemory, Op,
    Seq, Span, Stmt, Ty, Tys,
};
use sqlite_items::Boxed;
use std::alloc::Global;

/// The slot of `n` in the objects of `Cell`.
const N: u32 = 0;

/// `private int n;`
fn n_field(alloc: Global) -> Result<Field, NoMemory>
    ensures { IfOk result (λ f. f ≡ spec_n_field) }
{
    Ok(Field {
        name: Name::from_slice(alloc, b"n")?,
        ty: Ty::Int,
        is_static: false,
        is_final: false,
        is_volatile: false,
        access: Access::Private,
        constant: None,
    })
}

/// `n`, which is `this.n` [JLS 6.5.6.1].
fn read_n(alloc: Global, at: Span) -> Result<Expr, NoMemory>
    ensures { IfOk result (λ x. x ≡ spec_read_n at) }
{
    Ok(Expr::Field {
        at,
        object: Boxed::new(alloc, Expr::This { at })?,
        slot: N,
    })
}

/// `n = value`
fn set_n(alloc: Global, at: Span, value: Expr) -> Result<Expr, NoMemory>
    ensures { IfOk result (λ x. spec_assign_n at value ≡ Expression at x) }
{
    Ok(Expr::SetField {
        at,
        object: Boxed::new(alloc, Expr::This { at })?,
        slot: N,
        value: Boxed::new(alloc, value)?,
    })
}

/// `n = value;`
fn assign_n(alloc: Global, at: Span, value: Expr) -> Result<Stmt, NoMemory>
    ensures { IfOk result (λ s. s ≡ spec_assign_n at value) }
{
    Ok(Stmt::Expression {
        at,
        value: set_n(alloc, at, value)?,
    })
}

/// `return n;`, and the place of its `n`.
fn return_n(alloc: Global, at: Span, inside: Span) -> Result<Stmt, NoMemory>
    ensures { IfOk result (λ s. s ≡ spec_return_n at inside) }
{
    Ok(Stmt::Return {
        at,
        value: Some(read_n(alloc, inside)?),
    })
}

/// The parameter of the method.
fn parameter(at: Span) -> Expr
    ensures { result ≡ spec_parameter at }
{
    Expr::Local { at, slot: 0 }
}

/// A method without modifiers that stands on one line.
fn plain_method(
    alloc: Global,
    name: &[u8],
    takes: Tys,
    params: Names,
    gives: Ty,
    body: Stmt,
    at: Span,
) -> Result<Method, NoMemory>
    ensures { IfOk result (λ m. m ≡ spec_plain_method name.now takes params gives body at) }
{
    Ok(Method {
        name: Name::from_slice(alloc, name)?,
        takes,
        params,
        gives,
        is_static: false,
        is_abstract: false,
        is_synchronized: false,
        access: Access::Package,
        throws: Seq::new(alloc),
        marks: Marks {
            test: false,
            expected: None,
            before: false,
            after: false,
        },
        body: Body::Code(body),
        end_line: at.line,
        at,
    })
}

/// `{ n = a; }`
fn init_body(alloc: Global) -> Result<Stmt, NoMemory>
    ensures { IfOk result (λ s. s ≡ spec_init_body) }
{
    let stored = assign_n(alloc, spot(3, 19), parameter(spot(3, 23)))?;
    block_of_one(alloc, spot(3, 17), stored)
}

/// `Cell(int a) { n = a; }`
fn init_method(alloc: Global) -> Result<Method, NoMemory>
    ensures { IfOk result (λ m. m ≡ spec_init_method) }
{
    let takes = Seq::from_slice(alloc, &[Ty::Int])?;
    let params = one_name(alloc, b"a")?;
    let body = init_body(alloc)?;
    plain_method(alloc, b"<init>", takes, params, Ty::Void, body, spot(3, 5))
}

/// `n + b`
fn sum(alloc: Global) -> Result<Expr, NoMemory>
    ensures { IfOk result (λ x. x ≡ spec_sum) }
{
    let left = read_n(alloc, spot(4, 26))?;
    Ok(Expr::IntBinary {
        at: spot(4, 26),
        op: Op::Add,
        left: Boxed::new(alloc, left)?,
        right: Boxed::new(alloc, parameter(spot(4, 30)))?,
    })
}

/// `{ n = n + b; return n; }`
fn add_body(alloc: Global) -> Result<Stmt, NoMemory>
    ensures { IfOk result (λ s. s ≡ spec_add_body) }
{
    let added = assign_n(alloc, spot(4, 22), sum(alloc)?)?;
    let given = return_n(alloc, spot(4, 33), spot(4, 40))?;
    block_of_two(alloc, spot(4, 20), added, given)
}

/// `int add(int b) { n = n + b; return n; }`
fn add_method(alloc: Global) -> Result<Method, NoMemory>
    ensures { IfOk result (λ m. m ≡ spec_add_method) }
{
    let takes = Seq::from_slice(alloc, &[Ty::Int])?;
    let params = one_name(alloc, b"b")?;
    let body = add_body(alloc)?;
    plain_method(alloc, b"add", takes, params, Ty::Int, body, spot(4, 9))
}

/// `{ return n; }`
fn get_body(alloc: Global) -> Result<Stmt, NoMemory>
    ensures { IfOk result (λ s. s ≡ spec_get_body) }
{
    let given = return_n(alloc, spot(5, 17), spot(5, 24))?;
    block_of_one(alloc, spot(5, 15), given)
}

/// `int get() { return n; }`
fn get_method(alloc: Global) -> Result<Method, NoMemory>
    ensures { IfOk result (λ m. m ≡ spec_get_method) }
{
    let body = get_body(alloc)?;
    plain_method(
        alloc,
        b"get",
        Seq::new(alloc),
        Seq::new(alloc),
        Ty::Int,
        body,
        spot(5, 9),
    )
}

/// The fields of `Cell`.
fn cell_fields(alloc: Global) -> Result<Fields, NoMemory>
    ensures { IfOk result (λ fs. fs ≡ spec_n_field ∷ []) }
{
    let mut fields = Seq::new(alloc);
    fields.push(n_field(alloc)?)?;
    Ok(fields)
}

/// The methods of `Cell`, in source order.
fn cell_methods(alloc: Global) -> Result<Methods, NoMemory>
    ensures { IfOk result (λ ms. ms ≡ spec_init_method ∷ spec_add_method ∷ spec_get_method ∷ []) }
{
    let mut methods = Seq::new(alloc);
    methods.push(init_method(alloc)?)?;
    methods.push(add_method(alloc)?)?;
    methods.push(get_method(alloc)?)?;
    Ok(methods)
}

/// `Cell`
pub fn cell_class(alloc: Global) -> Result<Class, NoMemory>
    ensures { IfOk result (λ c. c ≡ spec_cell_class) }
{
    Ok(Class {
        name: Name::from_slice(alloc, b"Cell")?,
        is_interface: false,
        is_abstract: false,
        is_final: false,
        above: Some(0),
        interfaces: Seq::new(alloc),
        fields: cell_fields(alloc)?,
        methods: cell_methods(alloc)?,
        static_start: no_start(alloc, spot(1, 7)),
        instance_start: no_start(alloc, spot(1, 7)),
        is_prelude: false,
    })
}
