//! What the rules say of each, worked by hand. The functions pass on what is made, and look at it by reference.

use ClassKind::{Class, Interface};
use ModifierKind::{Abstract, Final, Private, Protected, Public, Static, Synchronized, Volatile};
use bj_base::{FaultCode, JText, NoMemory, Seq, Span};
use bj_rules::{Misfit, Place, head_misfit, import_misfit, member_misfit, modifiers_misfit};
use bj_tree::{
    AnnotationTree, AnnotationTrees, ClassKind, ConstructorTree, ExprTree, FieldTree, ImportTree,
    InitializerTree, MemberTree, MethodTree, Modifier, ModifierKind, Modifiers, NamedPlace,
    NamedPlaces, StmtTree, TypeName, TypeTree, VariableTree, VariableTrees,
};
use sqlite_items::{Boxed, Items};
use std::alloc::Global;
use std::test::Fail;

/// What is said of something, with the column of the fault.
#[derive(Clone, Copy, PartialEq, Eq)]
enum Answer {
    /// Nothing is wrong.
    Fits,
    /// `Syntax` at this column.
    Syntax(u32),
    /// `Profile` at this column.
    Profile(u32),
    /// `Large` at this column.
    Large(u32),
    /// Another code, or want of memory.
    Other,
}

use Answer::{Fits, Large, Profile, Syntax};

fn said(misfit: Option<Misfit>) -> Answer {
    match misfit {
        None => Fits,
        Some(misfit) => match misfit.code {
            FaultCode::Syntax => Syntax(misfit.at.column),
            FaultCode::Profile => Profile(misfit.at.column),
            FaultCode::Large => Large(misfit.at.column),
            _ => Answer::Other,
        },
    }
}

fn at(column: u32) -> Span {
    Span { line: 1, column }
}

fn text(alloc: Global, word: &str) -> Result<JText, NoMemory> {
    let mut units = Seq::new(alloc);
    for byte in word.as_bytes() {
        units.push(u16::from(*byte))?;
    }
    Ok(units)
}

fn named(alloc: Global, word: &str, column: u32) -> Result<NamedPlace, NoMemory> {
    Ok(NamedPlace {
        at: at(column),
        name: text(alloc, word)?,
    })
}

/// Modifiers, the first of them in column 1.
fn modifiers(alloc: Global, kinds: &[ModifierKind]) -> Result<Modifiers, NoMemory> {
    let mut made = Seq::new(alloc);
    let mut column: u32 = 1;
    for kind in kinds {
        made.push(Modifier {
            at: at(column),
            kind: *kind,
        })?;
        column = column.wrapping_add(1);
    }
    Ok(made)
}

/// The place of modifiers, and what is said of them.
const MODIFIERS: &[(Place, &[ModifierKind], Answer)] = &[
    (Place::Class, &[], Fits),
    (Place::Class, &[Public, Abstract], Fits),
    (Place::Class, &[Public, Final], Fits),
    (Place::Class, &[Abstract, Final], Syntax(2)),
    (Place::Class, &[Final, Public, Abstract], Syntax(3)),
    (Place::Class, &[Public, Public], Syntax(2)),
    (Place::Class, &[Private], Syntax(1)),
    (Place::Class, &[Static], Syntax(1)),
    (Place::Interface, &[Public, Abstract], Fits),
    (Place::Interface, &[Public, Final], Syntax(2)),
    (Place::Interface, &[Abstract, Abstract], Syntax(2)),
    (Place::Field, &[Protected, Static, Final], Fits),
    (Place::Field, &[Private, Volatile], Fits),
    (Place::Field, &[Final, Volatile], Syntax(2)),
    (Place::Field, &[Volatile, Static, Final], Syntax(3)),
    (Place::Field, &[Abstract], Syntax(1)),
    (Place::Field, &[Private, Public], Syntax(2)),
    (Place::FieldOfInterface, &[Public, Static, Final], Fits),
    (Place::FieldOfInterface, &[Private], Syntax(1)),
    (Place::FieldOfInterface, &[Static, Volatile], Syntax(2)),
    (Place::Method, &[Public, Abstract], Fits),
    (Place::Method, &[Public, Static, Final, Synchronized], Fits),
    (Place::Method, &[Abstract, Private], Syntax(2)),
    (Place::Method, &[Static, Abstract], Syntax(2)),
    (Place::Method, &[Abstract, Final], Syntax(2)),
    (Place::Method, &[Synchronized, Abstract], Syntax(2)),
    (Place::Method, &[Volatile], Syntax(1)),
    (Place::Method, &[Public, Protected, Public], Syntax(2)),
    (Place::MethodOfInterface, &[Public, Abstract], Fits),
    (Place::MethodOfInterface, &[Private], Syntax(1)),
    (Place::MethodOfInterface, &[Public, Static], Profile(2)),
    (Place::MethodOfInterface, &[Static, Static], Profile(1)),
    (Place::MethodOfInterface, &[Abstract, Static], Syntax(2)),
    (Place::MethodOfInterface, &[Final], Syntax(1)),
    (Place::Constructor, &[Protected], Fits),
    (Place::Constructor, &[Public, Private], Syntax(2)),
    (Place::Constructor, &[Static], Syntax(1)),
];

fn modifiers_answer(alloc: Global, place: Place, kinds: &[ModifierKind]) -> Answer {
    match modifiers(alloc, kinds) {
        Ok(made) => said(modifiers_misfit(place, made.as_slice())),
        Err(_) => Answer::Other,
    }
}

#[test]
fn modifiers_fit_their_places(rt: HostRuntime) -> Result<(), Fail> {
    for (place, kinds, expected) in MODIFIERS.iter() {
        if modifiers_answer(rt.alloc(), *place, kinds) != *expected {
            return Err("modifiers that the table answers otherwise".into());
        }
    }
    Ok(())
}

fn names(alloc: Global, words: &[&str]) -> Result<NamedPlaces, NoMemory> {
    let mut made = Seq::new(alloc);
    for word in words {
        made.push(named(alloc, word, 9)?)?;
    }
    Ok(made)
}

fn import(
    alloc: Global,
    is_static: bool,
    words: &[&str],
    is_on_demand: bool,
) -> Result<ImportTree, NoMemory> {
    Ok(ImportTree {
        at: at(1),
        is_static,
        names: names(alloc, words)?,
        is_on_demand,
    })
}

/// Whether an import is static, its names, whether `.*` ends it, and what is said of it.
const IMPORTS: &[(bool, &[&str], bool, Answer)] = &[
    (false, &["java", "util", "Scanner"], false, Fits),
    (false, &["java", "lang", "String"], false, Fits),
    (
        false,
        &["java", "lang", "NoClassDefFoundError"],
        false,
        Fits,
    ),
    (false, &["java", "io", "PrintStream"], false, Fits),
    (false, &["org", "junit", "Test"], false, Fits),
    (false, &["org", "junit", "Assert"], false, Fits),
    (false, &["java", "util", "List"], false, Profile(1)),
    (false, &["java", "lang", "Scanner"], false, Profile(1)),
    (false, &["java", "lang", "Override"], false, Profile(1)),
    (false, &["java", "lang", "string"], false, Profile(1)),
    (false, &["org", "lang", "String"], false, Profile(1)),
    (false, &["java", "junit", "Test"], false, Profile(1)),
    (false, &["Scanner"], false, Profile(1)),
    (false, &["java", "util"], false, Profile(1)),
    (false, &["java", "lang"], true, Fits),
    (false, &["java", "util"], true, Fits),
    (false, &["java", "io"], true, Fits),
    (false, &["org", "junit"], true, Fits),
    (false, &["java"], true, Profile(1)),
    (false, &["java", "net"], true, Profile(1)),
    (false, &["java", "util", "Scanner"], true, Profile(1)),
    (true, &["org", "junit", "Assert", "assertTrue"], false, Fits),
    (true, &["org", "junit", "Assert", "fail"], false, Fits),
    (
        true,
        &["org", "junit", "Assert", "assertThat"],
        false,
        Profile(1),
    ),
    (true, &["java", "lang", "Math", "abs"], false, Profile(1)),
    (true, &["org", "junit", "Assert"], false, Profile(1)),
    (true, &["org", "junit", "Assert"], true, Fits),
    (true, &["org", "junit", "Test"], true, Profile(1)),
    (true, &["org", "junit"], true, Profile(1)),
];

fn import_answer(alloc: Global, is_static: bool, words: &[&str], is_on_demand: bool) -> Answer {
    match import(alloc, is_static, words, is_on_demand) {
        Ok(made) => said(import_misfit(&made)),
        Err(_) => Answer::Other,
    }
}

#[test]
fn imports_name_what_there_is(rt: HostRuntime) -> Result<(), Fail> {
    for (is_static, words, is_on_demand, expected) in IMPORTS.iter() {
        if import_answer(rt.alloc(), *is_static, words, *is_on_demand) != *expected {
            return Err("an import that the table answers otherwise".into());
        }
    }
    Ok(())
}

/// Annotations, the first of them in column 1.
fn annotations(alloc: Global, words: &[&str]) -> Result<AnnotationTrees, NoMemory> {
    let mut made = Seq::new(alloc);
    let mut column: u32 = 1;
    for word in words {
        made.push(AnnotationTree {
            at: at(column),
            name: named(alloc, word, column)?,
            expected: None,
        })?;
        column = column.wrapping_add(1);
    }
    Ok(made)
}

/// The annotations and the modifiers of a class, and what is said of them.
const HEADS: &[(&[&str], &[ModifierKind], Answer)] = &[
    (&[], &[], Fits),
    (&["Override", "Test", "Before", "After"], &[Public], Fits),
    (&["Test", "Ignore"], &[Public], Profile(2)),
    (&["Deprecated", "Ignore"], &[Private], Profile(1)),
    (&["Test"], &[Public, Private], Syntax(2)),
    (&["test"], &[], Profile(1)),
];

fn head_answer(alloc: Global, words: &[&str], modifiers: &[Modifier]) -> Answer {
    match annotations(alloc, words) {
        Ok(made) => said(head_misfit(made.as_slice(), modifiers, Class)),
        Err(_) => Answer::Other,
    }
}

#[test]
fn heads_have_the_annotations_of_the_profile(rt: HostRuntime) -> Result<(), Fail> {
    for (words, kinds, expected) in HEADS.iter() {
        let found = match modifiers(rt.alloc(), kinds) {
            Ok(made) => head_answer(rt.alloc(), words, made.as_slice()),
            Err(_) => Answer::Other,
        };
        if found != *expected {
            return Err("a head that the table answers otherwise".into());
        }
    }
    Ok(())
}

/// A member that is made, or no memory for it.
type Made = Result<MemberTree, NoMemory>;

/// Lets a member go. Its drop stands here alone.
fn dismiss(_member: Made) {}

/// What is said of a member of a class, or an interface, A.
fn member_answer(kind: ClassKind, member: &Made) -> Answer {
    match member {
        Ok(member) => said(member_misfit(kind, &[65], member)),
        Err(_) => Answer::Other,
    }
}

/// So many empty statements.
fn empties(alloc: Global, count: usize) -> Result<Items<StmtTree>, NoMemory> {
    let mut made = Items::new(alloc);
    for _ in 0..count {
        made.push(StmtTree::Empty { at: at(61) })?;
    }
    Ok(made)
}

fn block(alloc: Global, body: Result<Items<StmtTree>, NoMemory>) -> Result<StmtTree, NoMemory> {
    Ok(StmtTree::Block {
        at: at(60),
        body: body?,
        end: at(62),
    })
}

/// A block of so many empty statements, which has one node more, in column 60.
fn body(alloc: Global, count: usize) -> Result<Boxed<StmtTree>, NoMemory> {
    Ok(Boxed::new(alloc, block(alloc, empties(alloc, count))?)?)
}

fn optional_body(alloc: Global, count: Option<usize>) -> Result<Option<Boxed<StmtTree>>, NoMemory> {
    match count {
        None => Ok(None),
        Some(count) => Ok(Some(body(alloc, count)?)),
    }
}

/// A method whose name stands in column 50.
fn method(alloc: Global, kinds: &[ModifierKind], count: Option<usize>) -> Made {
    Ok(MemberTree::Method(MethodTree {
        at: at(1),
        annotations: Seq::new(alloc),
        modifiers: modifiers(alloc, kinds)?,
        default: None,
        result: None,
        name: named(alloc, "f", 50)?,
        parameters: Seq::new(alloc),
        throws: Seq::new(alloc),
        body: optional_body(alloc, count)?,
    }))
}

/// A method's class or interface, its modifiers, how many statements its body has, if it has one, and what is said of it.
const METHODS: &[(ClassKind, &[ModifierKind], Option<usize>, Answer)] = &[
    (Class, &[Public], Some(0), Fits),
    (Class, &[Public], None, Syntax(50)),
    (Class, &[Abstract], None, Fits),
    (Class, &[Public, Abstract], Some(0), Syntax(50)),
    (Interface, &[], None, Fits),
    (Interface, &[Abstract], None, Fits),
    (Interface, &[Public], Some(0), Syntax(50)),
    (Interface, &[Static], Some(0), Profile(1)),
    (Interface, &[Private], Some(0), Syntax(1)),
    (Class, &[], Some(19_999), Fits),
    (Class, &[], Some(20_000), Large(60)),
    (Class, &[Abstract], Some(20_000), Large(60)),
    (Class, &[Volatile], Some(20_000), Syntax(1)),
];

#[test]
fn methods_have_bodies_where_they_stand(rt: HostRuntime) -> Result<(), Fail> {
    for (kind, kinds, count, expected) in METHODS.iter() {
        let member = method(rt.alloc(), kinds, *count);
        let found = member_answer(*kind, &member);
        dismiss(member);
        if found != *expected {
            return Err("a method that the table answers otherwise".into());
        }
    }
    Ok(())
}

fn constructor(alloc: Global, word: &str, count: usize) -> Made {
    Ok(MemberTree::Constructor(ConstructorTree {
        at: at(1),
        annotations: Seq::new(alloc),
        modifiers: Seq::new(alloc),
        name: named(alloc, word, 50)?,
        parameters: Seq::new(alloc),
        throws: Seq::new(alloc),
        body: body(alloc, count)?,
    }))
}

/// The class or interface of a constructor, its name, how many statements it has, and what is said of it.
const CONSTRUCTORS: &[(ClassKind, &str, usize, Answer)] = &[
    (Class, "A", 0, Fits),
    (Class, "a", 0, Syntax(1)),
    (Class, "AA", 0, Syntax(1)),
    (Interface, "A", 0, Syntax(1)),
    (Class, "A", 19_999, Fits),
    (Class, "B", 20_000, Large(60)),
];

#[test]
fn constructors_are_named_as_their_class(rt: HostRuntime) -> Result<(), Fail> {
    for (kind, word, count, expected) in CONSTRUCTORS.iter() {
        let member = constructor(rt.alloc(), word, *count);
        let found = member_answer(*kind, &member);
        dismiss(member);
        if found != *expected {
            return Err("a constructor that the table answers otherwise".into());
        }
    }
    Ok(())
}

fn initializer(alloc: Global, is_static: bool, count: usize) -> Made {
    Ok(MemberTree::Initializer(InitializerTree {
        at: at(1),
        is_static,
        body: body(alloc, count)?,
    }))
}

/// The class or interface of an initializer block, whether it is static, how many statements it has, and what is said of it.
const INITIALIZERS: &[(ClassKind, bool, usize, Answer)] = &[
    (Class, true, 0, Fits),
    (Class, false, 1, Fits),
    (Interface, true, 0, Syntax(1)),
    (Interface, false, 0, Syntax(1)),
    (Interface, false, 20_000, Large(60)),
];

#[test]
fn initializers_stand_in_classes(rt: HostRuntime) -> Result<(), Fail> {
    for (kind, is_static, count, expected) in INITIALIZERS.iter() {
        let member = initializer(rt.alloc(), *is_static, *count);
        let found = member_answer(*kind, &member);
        dismiss(member);
        if found != *expected {
            return Err("an initializer block that the table answers otherwise".into());
        }
    }
    Ok(())
}

/// So many times `this`.
fn values(alloc: Global, count: usize) -> Result<Items<ExprTree>, NoMemory> {
    let mut made = Items::new(alloc);
    for _ in 0..count {
        made.push(ExprTree::This { at: at(99) })?;
    }
    Ok(made)
}

fn braces(
    alloc: Global,
    count: Option<usize>,
    column: u32,
) -> Result<Option<Boxed<ExprTree>>, NoMemory> {
    let Some(count) = count else {
        return Ok(None);
    };
    let values = values(alloc, count)?;
    let tree = ExprTree::Braces {
        at: at(column),
        values,
    };
    Ok(Some(Boxed::new(alloc, tree)?))
}

fn variable(alloc: Global, count: Option<usize>, column: u32) -> Result<VariableTree, NoMemory> {
    Ok(VariableTree {
        at: at(40),
        name: text(alloc, "x")?,
        dims: 0,
        init: braces(alloc, count, column)?,
    })
}

/// Variables, the initializer of the first of them in column 70. An initializer of so many values has one node more.
fn variables(alloc: Global, counts: &[Option<usize>]) -> Result<VariableTrees, NoMemory> {
    let mut made = Seq::new(alloc);
    let mut column: u32 = 70;
    for count in counts {
        made.push(variable(alloc, *count, column)?)?;
        column = column.wrapping_add(1);
    }
    Ok(made)
}

fn field(alloc: Global, kinds: &[ModifierKind], counts: &[Option<usize>]) -> Made {
    Ok(MemberTree::Field(FieldTree {
        at: at(1),
        annotations: Seq::new(alloc),
        modifiers: modifiers(alloc, kinds)?,
        of: TypeTree {
            at: at(30),
            name: TypeName::Int,
            dims: 1,
        },
        variables: variables(alloc, counts)?,
    }))
}

/// The class or interface of fields, their modifiers, how many values the initializer of each has, if it has one, and what is said of them.
const FIELDS: &[(ClassKind, &[ModifierKind], &[Option<usize>], Answer)] = &[
    (Class, &[Private], &[None], Fits),
    (Class, &[Private, Final], &[Some(19_999), None], Fits),
    (
        Class,
        &[],
        &[Some(1), Some(20_000), Some(20_000)],
        Large(71),
    ),
    (Class, &[Abstract], &[Some(20_000)], Syntax(1)),
    (Interface, &[Public, Static, Final], &[Some(0)], Fits),
    (Interface, &[Private], &[Some(0)], Syntax(1)),
];

#[test]
fn fields_have_small_initializers(rt: HostRuntime) -> Result<(), Fail> {
    for (kind, kinds, counts, expected) in FIELDS.iter() {
        let member = field(rt.alloc(), kinds, counts);
        let found = member_answer(*kind, &member);
        dismiss(member);
        if found != *expected {
            return Err("fields that the table answers otherwise".into());
        }
    }
    Ok(())
}

#[test]
fn semicolons_fit() -> Result<(), Fail> {
    let member = Ok(MemberTree::Empty { at: at(1) });
    let found = member_answer(Interface, &member);
    dismiss(member);
    if found != Fits {
        return Err("a semicolon".into());
    }
    Ok(())
}
