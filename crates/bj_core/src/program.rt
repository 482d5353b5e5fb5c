ghost use Rattle.std.specs.Prelude.{◌≡◌, IfOk};

use crate::{Const, Stmt, Ty, Tys};
use bj_base::{Copies, Ids, Name, Names, NoMemory, Seq, Span};
use std::alloc::Global;

/// The number that stands for no class and for no method: those of a term's frame.
pub const NO_CLASS: u32 = 4_294_967_295;

/// Who may use a member [JLS 6.6].
#[derive(Clone, Copy, Debug, PartialEq, Eq)]
pub enum Access {
    /// `public`
    Public,
    /// `protected`
    Protected,
    /// No modifier.
    Package,
    /// `private`
    Private,
}

/// A field [JLS 8.3].
#[derive(Drop)]
pub struct Field {
    /// Its name.
    pub name: Name,
    /// Its type.
    pub ty: Ty,
    /// Whether it is `static`.
    pub is_static: bool,
    /// Whether it is `final`.
    pub is_final: bool,
    /// Whether it is `volatile`.
    pub is_volatile: bool,
    /// Who may use it.
    pub access: Access,
    /// Its value, where it is a constant variable [JLS 4.12.4].
    pub constant: Option<Const>,
}

/// Fields, in source order.
pub type Fields = Seq<Field>;

/// What a method does.
#[derive(Drop)]
pub enum Body {
    /// Its statements.
    Code(Stmt),
    /// The native with this number.
    Native(u32),
    /// Nothing: it is abstract.
    Missing,
}

/// The marks of JUnit 4 on a method.
#[derive(Clone, Copy, Debug, PartialEq, Eq)]
pub struct Marks {
    /// `@Test`
    pub test: bool,
    /// The class that `@Test` expects to be thrown.
    pub expected: Option<u32>,
    /// `@Before`
    pub before: bool,
    /// `@After`
    pub after: bool,
}

/// A method [JLS 8.4], or a constructor [JLS 8.8], which is named `<init>`.
pub struct Method {
    /// Its name.
    pub name: Name,
    /// The types of its parameters.
    pub takes: Tys,
    /// The names of its parameters, which its frames show.
    pub params: Names,
    /// The type of its result, or `Void`.
    pub gives: Ty,
    /// Whether it is `static`.
    pub is_static: bool,
    /// Whether it is `abstract`.
    pub is_abstract: bool,
    /// Whether it is `synchronized`.
    pub is_synchronized: bool,
    /// Who may call it.
    pub access: Access,
    /// The classes after `throws`.
    pub throws: Ids,
    /// Its marks.
    pub marks: Marks,
    /// What it does.
    pub body: Body,
    /// The line of the closing brace of its body.
    pub end_line: u32,
    /// The place of its name.
    pub at: Span,
}

// Written out, so that the drop of a method is one call wherever it is let go.
impl Drop for Method {
    fn drop(self) {
        let Method {
            name: _,
            takes: _,
            params: _,
            gives: _,
            is_static: _,
            is_abstract: _,
            is_synchronized: _,
            access: _,
            throws: _,
            marks: _,
            body: _,
            end_line: _,
            at: _,
        } = self;
    }
}

/// Methods, in source order.
pub type Methods = Seq<Method>;

/// A class [JLS 8.1] or an interface [JLS 9.1].
pub struct Class {
    /// Its name.
    pub name: Name,
    /// Whether it is an interface.
    pub is_interface: bool,
    /// Whether it is `abstract`.
    pub is_abstract: bool,
    /// Whether it is `final`.
    pub is_final: bool,
    /// Its superclass; None for Object and for interfaces.
    pub above: Option<u32>,
    /// Its superinterfaces.
    pub interfaces: Ids,
    /// The fields that it declares.
    pub fields: Fields,
    /// The methods that it declares.
    pub methods: Methods,
    /// Its static initializers and fields, in textual order [JLS 12.4.2].
    pub static_start: Stmt,
    /// Its instance initializers and fields, in textual order [JLS 12.5].
    pub instance_start: Stmt,
    /// Whether it is a class of the prelude.
    pub is_prelude: bool,
}

// Written out, so that the drop of a class is one call wherever it is let go.
impl Drop for Class {
    fn drop(self) {
        let Class {
            name: _,
            is_interface: _,
            is_abstract: _,
            is_final: _,
            above: _,
            interfaces: _,
            fields: _,
            methods: _,
            static_start: _,
            instance_start: _,
            is_prelude: _,
        } = self;
    }
}

/// Classes, by number.
pub type Classes = Seq<Class>;

/// A program: the prelude's classes first, then the others by name.
#[derive(Drop)]
pub struct Program {
    /// Its classes.
    pub classes: Classes,
}

impl Copies for Field {
    fn copy(&self, alloc: Global) -> Result<Field, NoMemory> {
        Ok(Field {
            name: self.name.copy(alloc)?,
            ty: self.ty,
            is_static: self.is_static,
            is_final: self.is_final,
            is_volatile: self.is_volatile,
            access: self.access,
            constant: self.constant.copy(alloc)?,
        })
    }
}

impl Copies for Body {
    fn copy(&self, alloc: Global) -> Result<Body, NoMemory> {
        match self {
            Body::Code(body) => Ok(Body::Code(body.copy(alloc)?)),
            Body::Native(number) => Ok(Body::Native(*number)),
            Body::Missing => Ok(Body::Missing),
        }
    }
}

impl Copies for Method {
    fn copy(&self, alloc: Global) -> Result<Method, NoMemory> {
        Ok(Method {
            name: self.name.copy(alloc)?,
            takes: self.takes.copy(alloc)?,
            params: self.params.copy(alloc)?,
            gives: self.gives,
            is_static: self.is_static,
            is_abstract: self.is_abstract,
            is_synchronized: self.is_synchronized,
            access: self.access,
            throws: self.throws.copy(alloc)?,
            marks: self.marks,
            body: self.body.copy(alloc)?,
            end_line: self.end_line,
            at: self.at,
        })
    }
}

impl Copies for Class {
    fn copy(&self, alloc: Global) -> Result<Class, NoMemory> {
        let name = self.name.copy(alloc)?;
        let interfaces = self.interfaces.copy(alloc)?;
        let fields = self.fields.copy(alloc)?;
        let methods = self.methods.copy(alloc)?;
        let (static_start, instance_start) = self.copy_starts(alloc)?;
        Ok(Class {
            name,
            is_interface: self.is_interface,
            is_abstract: self.is_abstract,
            is_final: self.is_final,
            above: self.above,
            interfaces,
            fields,
            methods,
            static_start,
            instance_start,
            is_prelude: self.is_prelude,
        })
    }
}

impl Class {
    /// Copies of what runs when the class starts and when an object of it does.
    fn copy_starts(&self, alloc: Global) -> Result<(Stmt, Stmt), NoMemory>
        ensures { IfOk result (λ copied. copied ≡ (self.now.static_start, self.now.instance_start)) }
    {
        let static_start = self.static_start.copy(alloc)?;
        let instance_start = self.instance_start.copy(alloc)?;
        Ok((static_start, instance_start))
    }
}

impl Copies for Program {
    fn copy(&self, alloc: Global) -> Result<Program, NoMemory> {
        Ok(Program {
            classes: self.classes.copy(alloc)?,
        })
    }
}
