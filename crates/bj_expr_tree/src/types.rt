ghost use Rattle.std.specs.Prelude.{◌≡◌, IfOk};

use bj_base::{Copies, JText, NoMemory, Seq, Span};
use std::alloc::Global;

/// The type that an array's elements have at last, or a type that is no array [JLS 4.2, 4.3].
pub enum TypeName {
    /// `int`
    Int,
    /// `long`
    Long,
    /// `boolean`
    Boolean,
    /// `char`
    Char,
    /// A class or interface, by its name.
    Named(JText),
}

// Written out, so that it is one call in the proof of each function that lets a type go: a derived one stands there with its cases.
impl Drop for TypeName {
    fn drop(self) {
        match self {
            TypeName::Int | TypeName::Long | TypeName::Boolean | TypeName::Char => {}
            TypeName::Named(_) => {}
        }
    }
}

/// A type as it is written [JLS 4].
#[derive(Drop)]
pub struct TypeTree {
    /// Where its first token stands.
    pub at: Span,
    /// The type before the brackets.
    pub name: TypeName,
    /// How many pairs of brackets follow.
    pub dims: u32,
}

/// Types.
pub type TypeTrees = Seq<TypeTree>;

/// A name where it is written, as after `throws`, `extends` or `implements`.
#[derive(Drop)]
pub struct NamedPlace {
    /// Where it stands.
    pub at: Span,
    /// Its units.
    pub name: JText,
}

/// Names where they are written.
pub type NamedPlaces = Seq<NamedPlace>;

impl Copies for TypeName {
    fn copy(&self, alloc: Global) -> Result<TypeName, NoMemory> {
        match self {
            TypeName::Int => Ok(TypeName::Int),
            TypeName::Long => Ok(TypeName::Long),
            TypeName::Boolean => Ok(TypeName::Boolean),
            TypeName::Char => Ok(TypeName::Char),
            TypeName::Named(name) => Ok(TypeName::Named(name.copy(alloc)?)),
        }
    }
}

impl Copies for TypeTree {
    fn copy(&self, alloc: Global) -> Result<TypeTree, NoMemory> {
        Ok(TypeTree {
            at: self.at,
            name: self.name.copy(alloc)?,
            dims: self.dims,
        })
    }
}

impl Copies for NamedPlace {
    fn copy(&self, alloc: Global) -> Result<NamedPlace, NoMemory> {
        Ok(NamedPlace {
            at: self.at,
            name: self.name.copy(alloc)?,
        })
    }
}
