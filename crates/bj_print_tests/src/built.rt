//! What is printed of trees that no text of the profile is read as: a catch of two types, and a method with `default`. Worked by hand.

use bj_base::{JText, Name, NoMemory, Seq, Span};
use bj_print::{print_class, print_stmt};
use bj_text::to_utf8;
use bj_tree::{
    ClassKind, ClassTree, MemberTree, MethodTree, NamedPlace, StmtTree, TypeName, TypeTree,
};
use sqlite_items::{Boxed, Items};
use std::alloc::Global;
use std::test::Fail;

const PLACE: Span = Span { line: 1, column: 1 };

fn text(alloc: Global, word: &str) -> Result<JText, NoMemory> {
    let mut units = Seq::new(alloc);
    for byte in word.as_bytes() {
        units.push(u16::from(*byte))?;
    }
    Ok(units)
}

fn named(alloc: Global, word: &str) -> Result<NamedPlace, NoMemory> {
    Ok(NamedPlace {
        at: PLACE,
        name: text(alloc, word)?,
    })
}

fn type_named(alloc: Global, word: &str) -> Result<TypeTree, NoMemory> {
    Ok(TypeTree {
        at: PLACE,
        name: TypeName::Named(text(alloc, word)?),
        dims: 0,
    })
}

/// `{ }`
fn empty_block(alloc: Global) -> Result<Boxed<StmtTree>, NoMemory> {
    Ok(Boxed::new(
        alloc,
        StmtTree::Block {
            at: PLACE,
            body: Items::new(alloc),
            end: PLACE,
        },
    )?)
}

/// The text of a catch of two types.
fn printed_catch(alloc: Global) -> Result<JText, NoMemory> {
    let mut types = Seq::new(alloc);
    types.push(type_named(alloc, "A")?)?;
    types.push(type_named(alloc, "B")?)?;
    let catch = StmtTree::Catch {
        at: PLACE,
        is_final: true,
        types,
        name: named(alloc, "e")?,
        body: empty_block(alloc)?,
    };
    print_stmt(alloc, &catch)
}

/// A method with `default`.
fn default_method(alloc: Global) -> Result<MemberTree, NoMemory> {
    Ok(MemberTree::Method(MethodTree {
        at: PLACE,
        annotations: Seq::new(alloc),
        modifiers: Seq::new(alloc),
        default: Some(PLACE),
        result: None,
        name: named(alloc, "m")?,
        parameters: Seq::new(alloc),
        throws: Seq::new(alloc),
        body: Some(empty_block(alloc)?),
    }))
}

/// The text of an interface with that method.
fn printed_interface(alloc: Global) -> Result<JText, NoMemory> {
    let mut members = Seq::new(alloc);
    members.push(default_method(alloc)?)?;
    let tree = ClassTree {
        file: Name::from_slice(alloc, b"A")?,
        imports: Seq::new(alloc),
        at: PLACE,
        annotations: Seq::new(alloc),
        modifiers: Seq::new(alloc),
        kind: ClassKind::Interface,
        name: named(alloc, "A")?,
        superclass: None,
        superinterfaces: Seq::new(alloc),
        members,
        end: PLACE,
    };
    print_class(alloc, &tree)
}

/// Whether a text was printed, and is this one.
fn is_text(alloc: Global, printed: Result<JText, NoMemory>, wanted: &str) -> bool {
    let Ok(units) = printed else {
        return false;
    };
    match to_utf8(alloc, units.as_slice()) {
        Ok(bytes) => bytes.as_slice() == wanted.as_bytes(),
        Err(_) => false,
    }
}

#[test]
fn types_of_a_catch_stand_with_bars_between_them(rt: HostRuntime) -> Result<(), Fail> {
    if is_text(
        rt.alloc(),
        printed_catch(rt.alloc()),
        "catch (final A | B e) { }",
    ) {
        Ok(())
    } else {
        Err("a catch that is printed otherwise".into())
    }
}

#[test]
fn default_stands_before_the_result(rt: HostRuntime) -> Result<(), Fail> {
    let wanted = "interface A\n{\n    default void m()\n    {\n    }\n}\n";
    if is_text(rt.alloc(), printed_interface(rt.alloc()), wanted) {
        Ok(())
    } else {
        Err("a method that is printed otherwise".into())
    }
}
