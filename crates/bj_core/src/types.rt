ghost use Rattle.std.specs.Prelude.{◌≡◌, IfOk};

use bj_base::{Copies, JText, NoMemory, Seq};
use std::alloc::Global;

/// The element type of an array type [JLS 10.1]: a type that is no array.
#[derive(Clone, Copy, Debug, PartialEq, Eq)]
pub enum Elem {
    /// `int`
    Int,
    /// `long`
    Long,
    /// `boolean`
    Bool,
    /// `char`
    Char,
    /// The class or interface with this number.
    Class(u32),
}

/// A type [JLS 4.1].
#[derive(Clone, Copy, Debug, PartialEq, Eq)]
pub enum Ty {
    /// `int`
    Int,
    /// `long`
    Long,
    /// `boolean`
    Bool,
    /// `char`
    Char,
    /// The type of `null`.
    Null,
    /// The result of a method without one.
    Void,
    /// The class or interface with this number.
    Class(u32),
    /// An array type: an element type, and at least one dimension.
    Array { elem: Elem, dims: u32 },
}

/// A value [JLS 4.2, 4.3.1].
#[derive(Clone, Copy, Debug, PartialEq, Eq)]
pub enum Val {
    /// An `int`.
    Int(i32),
    /// A `long`.
    Long(i64),
    /// A `boolean`.
    Bool(bool),
    /// A `char`: one UTF-16 unit.
    Char(u16),
    /// `null`
    Null,
    /// The object with this number, from 1, and its own class or array type.
    Ref { object: u32, of: Ty },
}

/// What a monitor belongs to [JLS 17.1]: an object, or a class.
#[derive(Clone, Copy, Debug, PartialEq, Eq)]
pub enum Key {
    /// The object with this number.
    Object(u32),
    /// The class with this number.
    Class(u32),
}

/// The value of a constant expression [JLS 15.28].
#[derive(Drop)]
pub enum Const {
    /// An `int`.
    Int(i32),
    /// A `long`.
    Long(i64),
    /// A `boolean`.
    Bool(bool),
    /// A `char`.
    Char(u16),
    /// A `String`.
    Text(JText),
}

/// Types.
pub type Tys = Seq<Ty>;

/// Values.
pub type Vals = Seq<Val>;

impl Copies for Ty {
    fn copy(&self, _alloc: Global) -> Result<Ty, NoMemory> {
        Ok(*self)
    }
}

impl Copies for Val {
    fn copy(&self, _alloc: Global) -> Result<Val, NoMemory> {
        Ok(*self)
    }
}

impl Copies for Const {
    fn copy(&self, alloc: Global) -> Result<Const, NoMemory> {
        match self {
            Const::Int(value) => Ok(Const::Int(*value)),
            Const::Long(value) => Ok(Const::Long(*value)),
            Const::Bool(value) => Ok(Const::Bool(*value)),
            Const::Char(value) => Ok(Const::Char(*value)),
            Const::Text(units) => Ok(Const::Text(units.copy(alloc)?)),
        }
    }
}
