use bj_base::{FaultCode, Name, NoMemory, Refusal, Seq, Span};
use bj_lex::tokens;
use bj_parse::class_of;
use bj_token::Tokens;
use bj_tree::ClassTree;
use std::alloc::Global;
use std::test::Fail;

/// What a file is read as.
#[derive(Clone, Copy, PartialEq, Eq)]
pub(crate) enum Read {
    /// A class or an interface with so many members.
    Members(usize),
    /// Nothing, with its first fault and the column, in line 1, at which it stands.
    Fault(FaultCode, u32),
    /// Nothing, for want of memory.
    NoMemory,
}

/// How many members a class has.
fn members(tree: &ClassTree) -> usize {
    tree.members.as_slice().len()
}

/// What a fault is, where it stands in line 1.
fn fault_at(code: FaultCode, at: Span) -> Read {
    if at.line != 1 {
        return Read::NoMemory;
    }
    Read::Fault(code, at.column)
}

/// What some tokens are read as.
fn read_of(alloc: Global, tokens: &Tokens) -> Read {
    match class_of(alloc, tokens) {
        Ok(tree) => Read::Members(members(&tree)),
        Err(Refusal::Fault(fault)) => fault_at(fault.code, fault.at),
        Err(Refusal::NoMemory) => Read::NoMemory,
    }
}

/// What the text of the file `A.java` is read as.
pub(crate) fn read_in(alloc: Global, text: &[u8]) -> Read {
    if text.len() >= 100000 {
        return Read::NoMemory;
    }
    let Ok(class) = Name::from_slice(alloc, b"A") else {
        return Read::NoMemory;
    };
    match tokens(alloc, &class, text) {
        Ok(read) => read_of(alloc, &read),
        Err(_) => Read::NoMemory,
    }
}

/// The text of a file, and what it is read as.
const FILES: &[(&str, Read)] = &[
    ("class A { }", Read::Members(0)),
    ("interface A { }", Read::Members(0)),
    ("import java.util.Scanner; class A { }", Read::Members(0)),
    (
        "import java.util.*; import static org.junit.Assert.*; public class A { }",
        Read::Members(0),
    ),
    (
        "import static org.junit.Assert.assertEquals; class A { }",
        Read::Members(0),
    ),
    (
        "public abstract class A extends B implements C, D { }",
        Read::Members(0),
    ),
    (
        "public abstract interface A extends B, C { }",
        Read::Members(0),
    ),
    ("@Test class A { }", Read::Members(0)),
    ("class A { ; }", Read::Members(1)),
    ("class A { int x; }", Read::Members(1)),
    (
        "class A { private static final int x = 1, y[] = {1, 2,}; }",
        Read::Members(1),
    ),
    ("class A { protected volatile B[][] b; }", Read::Members(1)),
    (
        "class A { B b = new B(), c; long d = -9223372036854775808L; }",
        Read::Members(2),
    ),
    ("class A { int x = -2147483648; }", Read::Members(1)),
    ("class A { void f() { } }", Read::Members(1)),
    (
        "class A { public static synchronized int f(final int a, B[] b, char c[]) throws E, F { return a; } }",
        Read::Members(1),
    ),
    (
        "abstract class A { abstract void f(); protected abstract int g(int a); }",
        Read::Members(2),
    ),
    ("class A { A() { } }", Read::Members(1)),
    (
        "class A { public A(int x) throws E { this(); } private A() { super(1, 2); ; } }",
        Read::Members(2),
    ),
    ("class A { { } static { } }", Read::Members(2)),
    ("class A { @Test public void f() { } }", Read::Members(1)),
    (
        "class A { @Test(expected = E.class) public void f() { } }",
        Read::Members(1),
    ),
    (
        "class A { @Override @Before public String f() { return null; } }",
        Read::Members(1),
    ),
    (
        "class A { int f() { return 1; } int g; A() { } boolean[] h() { return null; } }",
        Read::Members(4),
    ),
    (
        "interface A { int f(); public abstract void g(int a); int X = 1; public static final int Y = 2; ; }",
        Read::Members(5),
    ),
    ("", Read::Fault(FaultCode::Syntax, 1)),
    ("class", Read::Fault(FaultCode::Syntax, 6)),
    ("class A", Read::Fault(FaultCode::Syntax, 8)),
    ("class A {", Read::Fault(FaultCode::Syntax, 10)),
    ("class Wrong {", Read::Fault(FaultCode::Syntax, 14)),
    ("class A { } ;", Read::Fault(FaultCode::Syntax, 13)),
    (
        "class A { } class B { }",
        Read::Fault(FaultCode::Syntax, 13),
    ),
    ("a class A { }", Read::Fault(FaultCode::Syntax, 1)),
    ("import ; class A { }", Read::Fault(FaultCode::Syntax, 8)),
    ("import a.; class A { }", Read::Fault(FaultCode::Syntax, 10)),
    (
        "import a.*.b; class A { }",
        Read::Fault(FaultCode::Syntax, 11),
    ),
    (
        "import static; class A { }",
        Read::Fault(FaultCode::Syntax, 14),
    ),
    ("import a class A { }", Read::Fault(FaultCode::Syntax, 10)),
    ("class A extends { }", Read::Fault(FaultCode::Syntax, 17)),
    (
        "class A extends B, C { }",
        Read::Fault(FaultCode::Syntax, 18),
    ),
    ("class A implements { }", Read::Fault(FaultCode::Syntax, 20)),
    (
        "interface A implements B { }",
        Read::Fault(FaultCode::Syntax, 13),
    ),
    (
        "interface A extends B, { }",
        Read::Fault(FaultCode::Syntax, 24),
    ),
    (
        "class A implements B extends C { }",
        Read::Fault(FaultCode::Syntax, 22),
    ),
    ("class 3 { }", Read::Fault(FaultCode::Syntax, 7)),
    ("public int A { }", Read::Fault(FaultCode::Syntax, 8)),
    ("@ class A { }", Read::Fault(FaultCode::Syntax, 3)),
    ("@Test( class A { }", Read::Fault(FaultCode::Syntax, 8)),
    (
        "@Test(other = E.class) class A { }",
        Read::Fault(FaultCode::Syntax, 7),
    ),
    (
        "@Test(expected E.class) class A { }",
        Read::Fault(FaultCode::Syntax, 16),
    ),
    (
        "@Test(expected = E) class A { }",
        Read::Fault(FaultCode::Syntax, 19),
    ),
    ("class A { 3; }", Read::Fault(FaultCode::Syntax, 11)),
    ("class A { int }", Read::Fault(FaultCode::Syntax, 15)),
    ("class A { int x }", Read::Fault(FaultCode::Syntax, 17)),
    ("class A { int x = ; }", Read::Fault(FaultCode::Syntax, 19)),
    ("class A { int x, ; }", Read::Fault(FaultCode::Syntax, 18)),
    ("class A { int x[1]; }", Read::Fault(FaultCode::Syntax, 17)),
    ("class A { int f( { } }", Read::Fault(FaultCode::Syntax, 18)),
    (
        "class A { int f(int) { } }",
        Read::Fault(FaultCode::Syntax, 20),
    ),
    (
        "class A { int f(int a,) { } }",
        Read::Fault(FaultCode::Syntax, 23),
    ),
    (
        "class A { int f(int a int b) { } }",
        Read::Fault(FaultCode::Syntax, 23),
    ),
    (
        "class A { int f() throws { } }",
        Read::Fault(FaultCode::Syntax, 26),
    ),
    (
        "class A { int f() int x; }",
        Read::Fault(FaultCode::Syntax, 19),
    ),
    (
        "class A { int f()[] { } }",
        Read::Fault(FaultCode::Syntax, 18),
    ),
    ("class A { void { } }", Read::Fault(FaultCode::Syntax, 16)),
    ("class A { void x; }", Read::Fault(FaultCode::Syntax, 17)),
    (
        "class A { void[] f() { } }",
        Read::Fault(FaultCode::Syntax, 15),
    ),
    ("class A { A() ; }", Read::Fault(FaultCode::Syntax, 15)),
    ("class A { A(1) { } }", Read::Fault(FaultCode::Syntax, 13)),
    ("class A { static }", Read::Fault(FaultCode::Syntax, 18)),
    ("class A { public { } }", Read::Fault(FaultCode::Syntax, 18)),
    ("class A { public ; }", Read::Fault(FaultCode::Syntax, 18)),
    ("class A { @Test ; }", Read::Fault(FaultCode::Syntax, 17)),
    ("class A { { } ) }", Read::Fault(FaultCode::Syntax, 15)),
    ("class A { void f() { }", Read::Fault(FaultCode::Syntax, 23)),
    (
        "class A { final class B { } }",
        Read::Fault(FaultCode::Profile, 17),
    ),
    (
        "class A { class B { } }",
        Read::Fault(FaultCode::Profile, 11),
    ),
    (
        "class A { interface B { } }",
        Read::Fault(FaultCode::Profile, 11),
    ),
    (
        "class A { @Test class B { } }",
        Read::Fault(FaultCode::Profile, 17),
    ),
    (
        "class A { default void f() { } }",
        Read::Fault(FaultCode::Profile, 11),
    ),
    ("class A<T> { }", Read::Fault(FaultCode::Profile, 8)),
    (
        "class A { List<String> x; }",
        Read::Fault(FaultCode::Profile, 15),
    ),
    (
        "class A { List<?> x; }",
        Read::Fault(FaultCode::Profile, 15),
    ),
    (
        "class A { void f() { class B { } } }",
        Read::Fault(FaultCode::Profile, 22),
    ),
    (
        "class A { void f() { try (a) { } } }",
        Read::Fault(FaultCode::Profile, 26),
    ),
    (
        "class A { void f() { try { } catch (E | F e) { } } }",
        Read::Fault(FaultCode::Profile, 39),
    ),
    (
        "class A { int x = 2147483648; }",
        Read::Fault(FaultCode::Wide, 19),
    ),
    (
        "import java.util.List; class A { }",
        Read::Fault(FaultCode::Profile, 1),
    ),
    (
        "import java.util.Scanner.*; class A { }",
        Read::Fault(FaultCode::Profile, 1),
    ),
    (
        "import org.junit.*; import a.b; class A { }",
        Read::Fault(FaultCode::Profile, 21),
    ),
    (
        "import static org.junit.Assert.foo; class A { }",
        Read::Fault(FaultCode::Profile, 1),
    ),
    (
        "import static java.lang.Math.*; class A { }",
        Read::Fault(FaultCode::Profile, 1),
    ),
    (
        "class A { public public int x = ; }",
        Read::Fault(FaultCode::Syntax, 18),
    ),
    (
        "class A { public public }",
        Read::Fault(FaultCode::Syntax, 18),
    ),
    (
        "class A { public public void f() { x = ; } }",
        Read::Fault(FaultCode::Syntax, 18),
    ),
    (
        "class A { int y; public private int x = ; }",
        Read::Fault(FaultCode::Syntax, 25),
    ),
    (
        "class A { volatile public public int x }",
        Read::Fault(FaultCode::Syntax, 27),
    ),
    (
        "class A { volatile public public int x() }",
        Read::Fault(FaultCode::Syntax, 11),
    ),
    (
        "class A { volatile int x }",
        Read::Fault(FaultCode::Syntax, 26),
    ),
    (
        "class A { volatile int x( }",
        Read::Fault(FaultCode::Syntax, 11),
    ),
    (
        "class A { volatile int[ x; }",
        Read::Fault(FaultCode::Syntax, 25),
    ),
    (
        "class A { synchronized int x = ; }",
        Read::Fault(FaultCode::Syntax, 11),
    ),
    (
        "class A { synchronized int x[] }",
        Read::Fault(FaultCode::Syntax, 11),
    ),
    (
        "class A { synchronized volatile }",
        Read::Fault(FaultCode::Syntax, 33),
    ),
    (
        "class A { static A( int }",
        Read::Fault(FaultCode::Syntax, 11),
    ),
    ("class A { static A }", Read::Fault(FaultCode::Syntax, 20)),
    ("class A { static A[] }", Read::Fault(FaultCode::Syntax, 22)),
    (
        "class A { abstract final void }",
        Read::Fault(FaultCode::Syntax, 20),
    ),
    (
        "class A { abstract final }",
        Read::Fault(FaultCode::Syntax, 26),
    ),
    (
        "class A { final volatile int x, ; }",
        Read::Fault(FaultCode::Syntax, 17),
    ),
    (
        "class A { static { x = ; } }",
        Read::Fault(FaultCode::Syntax, 24),
    ),
    ("class A { static }", Read::Fault(FaultCode::Syntax, 18)),
    (
        "class A { static static { } }",
        Read::Fault(FaultCode::Syntax, 18),
    ),
    (
        "class A { @Foo int x = ; }",
        Read::Fault(FaultCode::Profile, 11),
    ),
    (
        "class A { @Test @Foo }",
        Read::Fault(FaultCode::Profile, 17),
    ),
    ("class A { @Foo( }", Read::Fault(FaultCode::Syntax, 17)),
    (
        "class A { @Foo @Test( }",
        Read::Fault(FaultCode::Profile, 11),
    ),
    (
        "class A { @Foo(expected = B.class)( }",
        Read::Fault(FaultCode::Profile, 11),
    ),
    (
        "class A { public public @Foo }",
        Read::Fault(FaultCode::Syntax, 18),
    ),
    ("public public class { }", Read::Fault(FaultCode::Syntax, 8)),
    ("private class { }", Read::Fault(FaultCode::Syntax, 1)),
    ("final interface { }", Read::Fault(FaultCode::Syntax, 1)),
    ("final }", Read::Fault(FaultCode::Syntax, 7)),
    ("static final }", Read::Fault(FaultCode::Syntax, 1)),
    ("@Foo public { }", Read::Fault(FaultCode::Profile, 1)),
    (
        "interface A { static void f( }",
        Read::Fault(FaultCode::Profile, 15),
    ),
    (
        "interface A { static int f }",
        Read::Fault(FaultCode::Syntax, 28),
    ),
    (
        "interface A { private int f }",
        Read::Fault(FaultCode::Syntax, 15),
    ),
    (
        "import java.lang.; class A { }",
        Read::Fault(FaultCode::Syntax, 18),
    ),
    ("@Foo class A { }", Read::Fault(FaultCode::Profile, 1)),
    ("@Test @Foo class A { }", Read::Fault(FaultCode::Profile, 7)),
    (
        "class A { @Deprecated int x; }",
        Read::Fault(FaultCode::Profile, 11),
    ),
    (
        "public public class A { }",
        Read::Fault(FaultCode::Syntax, 8),
    ),
    ("private class A { }", Read::Fault(FaultCode::Syntax, 1)),
    (
        "abstract final class A { }",
        Read::Fault(FaultCode::Syntax, 10),
    ),
    ("final interface A { }", Read::Fault(FaultCode::Syntax, 1)),
    (
        "class A { public private int x; }",
        Read::Fault(FaultCode::Syntax, 18),
    ),
    (
        "class A { static final static int x; }",
        Read::Fault(FaultCode::Syntax, 24),
    ),
    (
        "class A { abstract int x; }",
        Read::Fault(FaultCode::Syntax, 11),
    ),
    (
        "class A { final volatile int x = 1; }",
        Read::Fault(FaultCode::Syntax, 17),
    ),
    (
        "class A { volatile void f() { } }",
        Read::Fault(FaultCode::Syntax, 11),
    ),
    (
        "abstract class A { abstract static void f(); }",
        Read::Fault(FaultCode::Syntax, 29),
    ),
    (
        "abstract class A { private abstract void f(); }",
        Read::Fault(FaultCode::Syntax, 28),
    ),
    (
        "class A { static A() { } }",
        Read::Fault(FaultCode::Syntax, 11),
    ),
    (
        "interface A { private int f(); }",
        Read::Fault(FaultCode::Syntax, 15),
    ),
    (
        "interface A { protected int X = 1; }",
        Read::Fault(FaultCode::Syntax, 15),
    ),
    (
        "interface A { static int f() { return 1; } }",
        Read::Fault(FaultCode::Profile, 15),
    ),
    ("class A { void f(); }", Read::Fault(FaultCode::Syntax, 16)),
    (
        "abstract class A { abstract void f() { } }",
        Read::Fault(FaultCode::Syntax, 34),
    ),
    (
        "interface A { void f() { } }",
        Read::Fault(FaultCode::Syntax, 20),
    ),
    ("class A { B() { } }", Read::Fault(FaultCode::Syntax, 11)),
    (
        "class A { public B() { } }",
        Read::Fault(FaultCode::Syntax, 11),
    ),
    (
        "interface A { A() { } }",
        Read::Fault(FaultCode::Syntax, 15),
    ),
    ("interface A { { } }", Read::Fault(FaultCode::Syntax, 15)),
    (
        "interface A { static { } }",
        Read::Fault(FaultCode::Syntax, 15),
    ),
    (
        "class A { int x = ((((((((((((((((((((((((((((((((((((((((((((((((((((((((((((((((((((((((((((((((((((((((((((((((((((((((((((((((((((((((((((((((((((((((((((((((((((((((((((((((((((((((((((((((((((((((((((((((((((((((1)))))))))))))))))))))))))))))))))))))))))))))))))))))))))))))))))))))))))))))))))))))))))))))))))))))))))))))))))))))))))))))))))))))))))))))))))))))))))))))))))))))))))))))))))))))))))))))))))))))))); }",
        Read::Members(1),
    ),
    (
        "class A { int x = (((((((((((((((((((((((((((((((((((((((((((((((((((((((((((((((((((((((((((((((((((((((((((((((((((((((((((((((((((((((((((((((((((((((((((((((((((((((((((((((((((((((((((((((((((((((((((((((((((((((((1))))))))))))))))))))))))))))))))))))))))))))))))))))))))))))))))))))))))))))))))))))))))))))))))))))))))))))))))))))))))))))))))))))))))))))))))))))))))))))))))))))))))))))))))))))))))))))))))))))))))); }",
        Read::Fault(FaultCode::Deep, 220),
    ),
];

#[test]
fn files_are_read_or_refused_at_the_first_fault(rt: HostRuntime) -> Result<(), Fail> {
    for (text, wanted) in FILES.iter() {
        if read_in(rt.alloc(), text.as_bytes()) != *wanted {
            return Err((*text).into());
        }
    }
    Ok(())
}

/// A class with one method, in whose body so many semicolons stand: the block and each of them is a node.
fn with_semicolons(alloc: Global, count: usize) -> Result<Seq<u8>, NoMemory> {
    let mut text = Seq::from_slice(alloc, b"class A { void f() {")?;
    for _turn in 0..count {
        text.push(59)?;
    }
    for byte in b"} }" {
        text.push(*byte)?;
    }
    Ok(text)
}

/// What the class with so many semicolons is read as.
fn read_with_semicolons(alloc: Global, count: usize) -> Read {
    match with_semicolons(alloc, count) {
        Ok(text) => read_in(alloc, text.as_slice()),
        Err(_) => Read::NoMemory,
    }
}

#[test]
fn a_body_of_20001_nodes_is_large(rt: HostRuntime) -> Result<(), Fail> {
    assert!(rt; read_with_semicolons(rt.alloc(), 19999) == Read::Members(1));
    assert!(rt; read_with_semicolons(rt.alloc(), 20000) == Read::Fault(FaultCode::Large, 20));
    Ok(())
}
