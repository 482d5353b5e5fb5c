ghost use Rattle.std.specs.Prelude.{◌≡◌, IfOk};

use crate::MemberTrees;
use bj_base::{Copies, Name, NoMemory, Seq, Span};
use bj_expr_tree::{NamedPlace, NamedPlaces};
use std::alloc::Global;

/// The modifiers of classes, interfaces and members but `default` [JLS 8.1.1, 8.3.1, 8.4.3].
#[derive(Clone, Copy, Debug, PartialEq, Eq)]
pub enum ModifierKind {
    /// `public`
    Public,
    /// `protected`
    Protected,
    /// `private`
    Private,
    /// `abstract`
    Abstract,
    /// `static`
    Static,
    /// `final`
    Final,
    /// `synchronized`
    Synchronized,
    /// `volatile`
    Volatile,
}

/// A modifier where it is written.
#[derive(Clone, Copy, Debug, PartialEq, Eq)]
pub struct Modifier {
    /// Where it stands.
    pub at: Span,
    /// Which one it is.
    pub kind: ModifierKind,
}

/// Modifiers, in order.
pub type Modifiers = Seq<Modifier>;

/// An annotation [JLS 9.7].
#[derive(Drop)]
pub struct AnnotationTree {
    /// Where its `@` stands.
    pub at: Span,
    /// Its name.
    pub name: NamedPlace,
    /// The class that its element `expected` names, if it has one.
    pub expected: Option<NamedPlace>,
}

/// Annotations, in order.
pub type AnnotationTrees = Seq<AnnotationTree>;

/// An import [JLS 7.5].
#[derive(Drop)]
pub struct ImportTree {
    /// Where its first token stands.
    pub at: Span,
    /// Whether it imports static members [JLS 7.5.3, 7.5.4].
    pub is_static: bool,
    /// The identifiers of its name, in order, without the dots between them.
    pub names: NamedPlaces,
    /// Whether it ends with `.*` [JLS 7.5.2, 7.5.4].
    pub is_on_demand: bool,
}

/// Imports, in order.
pub type ImportTrees = Seq<ImportTree>;

/// Whether it is a class or an interface [JLS 8.1, 9.1].
#[derive(Clone, Copy, Debug, PartialEq, Eq)]
pub enum ClassKind {
    /// `class`
    Class,
    /// `interface`
    Interface,
}

/// A file with the class or the interface in it [JLS 7.3, 8.1, 9.1].
#[derive(Drop)]
pub struct ClassTree {
    /// The name of its file, without the ending.
    pub file: Name,
    /// The file's imports.
    pub imports: ImportTrees,
    /// Where its first token behind the imports stands.
    pub at: Span,
    /// Its annotations.
    pub annotations: AnnotationTrees,
    /// Its modifiers.
    pub modifiers: Modifiers,
    /// Whether it is a class or an interface.
    pub kind: ClassKind,
    /// Its name.
    pub name: NamedPlace,
    /// The class after a class's `extends` [JLS 8.1.4].
    pub superclass: Option<NamedPlace>,
    /// What stands after a class's `implements` or an interface's `extends` [JLS 8.1.5, 9.1.3].
    pub superinterfaces: NamedPlaces,
    /// Its members.
    pub members: MemberTrees,
    /// Where its closing brace stands.
    pub end: Span,
}

/// Files, each with its class or interface.
pub type ClassTrees = Seq<ClassTree>;

impl Copies for Modifier {
    fn copy(&self, _alloc: Global) -> Result<Modifier, NoMemory> {
        Ok(*self)
    }
}

impl Copies for AnnotationTree {
    fn copy(&self, alloc: Global) -> Result<AnnotationTree, NoMemory> {
        Ok(AnnotationTree {
            at: self.at,
            name: self.name.copy(alloc)?,
            expected: self.expected.copy(alloc)?,
        })
    }
}

impl Copies for ImportTree {
    fn copy(&self, alloc: Global) -> Result<ImportTree, NoMemory> {
        Ok(ImportTree {
            at: self.at,
            is_static: self.is_static,
            names: self.names.copy(alloc)?,
            is_on_demand: self.is_on_demand,
        })
    }
}

impl Copies for ClassTree {
    fn copy(&self, alloc: Global) -> Result<ClassTree, NoMemory> {
        let file = self.file.copy(alloc)?;
        let name = self.name.copy(alloc)?;
        let superinterfaces = self.superinterfaces.copy(alloc)?;
        let (imports, annotations, modifiers, members) = self.copy_lists(alloc)?;
        let superclass = self.superclass.copy(alloc)?;
        Ok(ClassTree {
            file,
            imports,
            at: self.at,
            annotations,
            modifiers,
            kind: self.kind,
            name,
            superclass,
            superinterfaces,
            members,
            end: self.end,
        })
    }
}

impl ClassTree {
    /// Copies of its imports, its annotations, its modifiers and its members.
    fn copy_lists(
        &self,
        alloc: Global,
    ) -> Result<(ImportTrees, AnnotationTrees, Modifiers, MemberTrees), NoMemory>
        ensures { IfOk result (λ copied. copied ≡ (self.now.imports, self.now.annotations, self.now.modifiers, self.now.members)) }
    {
        let imports = self.imports.copy(alloc)?;
        let annotations = self.annotations.copy(alloc)?;
        let modifiers = self.modifiers.copy(alloc)?;
        let members = self.members.copy(alloc)?;
        Ok((imports, annotations, modifiers, members))
    }
}
