ghost use Rattle.std.specs.Prelude.{◌≡◌, IfOk};

use crate::stmt_copy::copy_boxed_stmt;
use crate::{AnnotationTrees, Modifiers, StmtTree, VariableTrees};
use bj_base::{Copies, NoMemory, Seq, Span};
use bj_expr_tree::{NamedPlace, NamedPlaces, TypeTree};
use sqlite_items::Boxed;
use std::alloc::Global;

/// A parameter of a method or a constructor [JLS 8.4.1].
#[derive(Drop)]
pub struct ParameterTree {
    /// Where its first token stands.
    pub at: Span,
    /// Whether it is `final`.
    pub is_final: bool,
    /// Its type, without the brackets behind its name.
    pub of: TypeTree,
    /// Its name.
    pub name: NamedPlace,
    /// How many pairs of brackets stand behind its name.
    pub dims: u32,
}

/// The parameters of a method or a constructor, in order.
pub type ParameterTrees = Seq<ParameterTree>;

/// A declaration of fields [JLS 8.3, 9.3].
#[derive(Drop)]
pub struct FieldTree {
    /// Where its first token stands.
    pub at: Span,
    /// Its annotations.
    pub annotations: AnnotationTrees,
    /// Its modifiers.
    pub modifiers: Modifiers,
    /// The type of its fields, without the brackets behind their names.
    pub of: TypeTree,
    /// Its fields.
    pub variables: VariableTrees,
}

/// A method [JLS 8.4, 9.4].
#[derive(Drop)]
pub struct MethodTree {
    /// Where its first token stands.
    pub at: Span,
    /// Its annotations.
    pub annotations: AnnotationTrees,
    /// Its modifiers but `default`.
    pub modifiers: Modifiers,
    /// Where its modifier `default` stands, if it has one [JLS 9.4.3].
    pub default: Option<Span>,
    /// Its result, or None for `void` [JLS 8.4.5].
    pub result: Option<TypeTree>,
    /// Its name.
    pub name: NamedPlace,
    /// Its parameters.
    pub parameters: ParameterTrees,
    /// The classes after `throws` [JLS 8.4.6].
    pub throws: NamedPlaces,
    /// Its body, a block, or None where `;` stands in its place [JLS 8.4.7].
    pub body: Option<Boxed<StmtTree>>,
}

/// A constructor [JLS 8.8].
#[derive(Drop)]
pub struct ConstructorTree {
    /// Where its first token stands.
    pub at: Span,
    /// Its annotations.
    pub annotations: AnnotationTrees,
    /// Its modifiers.
    pub modifiers: Modifiers,
    /// Its name.
    pub name: NamedPlace,
    /// Its parameters.
    pub parameters: ParameterTrees,
    /// The classes after `throws` [JLS 8.8.5].
    pub throws: NamedPlaces,
    /// Its body, a block [JLS 8.8.7].
    pub body: Boxed<StmtTree>,
}

/// An initializer block [JLS 8.6, 8.7].
#[derive(Drop)]
pub struct InitializerTree {
    /// Where its first token stands.
    pub at: Span,
    /// Whether it is `static`.
    pub is_static: bool,
    /// Its block.
    pub body: Boxed<StmtTree>,
}

/// A member of a class or an interface [JLS 8.1.6, 9.1.4]. Each variant is a production.
#[derive(Drop)]
pub enum MemberTree {
    /// A declaration of fields [JLS 8.3].
    Field(FieldTree),
    /// A method [JLS 8.4].
    Method(MethodTree),
    /// A constructor [JLS 8.8].
    Constructor(ConstructorTree),
    /// An initializer block [JLS 8.6, 8.7].
    Initializer(InitializerTree),
    /// `;`, and where it stands [JLS 8.1.6].
    Empty {
        /// Where it stands.
        at: Span,
    },
}

/// The members of a class or an interface, in order.
pub type MemberTrees = Seq<MemberTree>;

impl Copies for ParameterTree {
    fn copy(&self, alloc: Global) -> Result<ParameterTree, NoMemory> {
        Ok(ParameterTree {
            at: self.at,
            is_final: self.is_final,
            of: self.of.copy(alloc)?,
            name: self.name.copy(alloc)?,
            dims: self.dims,
        })
    }
}

impl Copies for FieldTree {
    fn copy(&self, alloc: Global) -> Result<FieldTree, NoMemory> {
        Ok(FieldTree {
            at: self.at,
            annotations: self.annotations.copy(alloc)?,
            modifiers: self.modifiers.copy(alloc)?,
            of: self.of.copy(alloc)?,
            variables: self.variables.copy(alloc)?,
        })
    }
}

impl Copies for MethodTree {
    fn copy(&self, alloc: Global) -> Result<MethodTree, NoMemory> {
        Ok(MethodTree {
            at: self.at,
            annotations: self.annotations.copy(alloc)?,
            modifiers: self.modifiers.copy(alloc)?,
            default: self.default,
            name: self.name.copy(alloc)?,
            parameters: self.parameters.copy(alloc)?,
            throws: self.throws.copy(alloc)?,
            // Last: a part before the one that finds no room is let go, and an `Option` both with its value and without.
            result: self.result.copy(alloc)?,
            body: copy_body(alloc, &self.body)?,
        })
    }
}

impl Copies for ConstructorTree {
    fn copy(&self, alloc: Global) -> Result<ConstructorTree, NoMemory> {
        Ok(ConstructorTree {
            at: self.at,
            annotations: self.annotations.copy(alloc)?,
            modifiers: self.modifiers.copy(alloc)?,
            name: self.name.copy(alloc)?,
            parameters: self.parameters.copy(alloc)?,
            throws: self.throws.copy(alloc)?,
            body: copy_boxed_stmt(alloc, &self.body)?,
        })
    }
}

impl Copies for InitializerTree {
    fn copy(&self, alloc: Global) -> Result<InitializerTree, NoMemory> {
        Ok(InitializerTree {
            at: self.at,
            is_static: self.is_static,
            body: copy_boxed_stmt(alloc, &self.body)?,
        })
    }
}

impl Copies for MemberTree {
    fn copy(&self, alloc: Global) -> Result<MemberTree, NoMemory> {
        match self {
            MemberTree::Field(field) => Ok(MemberTree::Field(field.copy(alloc)?)),
            MemberTree::Method(method) => Ok(MemberTree::Method(method.copy(alloc)?)),
            MemberTree::Constructor(constructor) => {
                Ok(MemberTree::Constructor(constructor.copy(alloc)?))
            }
            MemberTree::Initializer(initializer) => {
                Ok(MemberTree::Initializer(initializer.copy(alloc)?))
            }
            MemberTree::Empty { at } => Ok(MemberTree::Empty { at: *at }),
        }
    }
}

/// A copy of a body that may be missing.
fn copy_body(
    alloc: Global,
    body: &Option<Boxed<StmtTree>>,
) -> Result<Option<Boxed<StmtTree>>, NoMemory>
    ensures { IfOk result (λ copied. copied ≡ body.now) }
{
    match body {
        None => Ok(None),
        Some(body) => Ok(Some(copy_boxed_stmt(alloc, body)?)),
    }
}
