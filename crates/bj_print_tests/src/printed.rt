//! Texts of Java, and what is printed of the trees that they are read as, worked by hand from the rules of the layout.

use bj_base::{Bytes, JText, Name, NoMemory};
use bj_lex::tokens;
use bj_parse::{class_of, line_of};
use bj_print::{print_class, print_expr, print_stmt};
use bj_text::to_utf8;
use bj_token::Tokens;
use bj_tree::{ClassTree, LineTree};
use std::alloc::Global;
use std::test::Fail;

/// Lets a tree go. Its drop stands here alone, so that no caller's proof goes through it.
pub(crate) fn let_line_go(_tree: LineTree) {}

/// Lets a tree go, like `let_line_go`.
pub(crate) fn let_class_go(_tree: ClassTree) {}

/// The bytes of a text that was printed.
pub(crate) fn bytes_of(alloc: Global, printed: Result<JText, NoMemory>) -> Option<Bytes> {
    let Ok(units) = printed else {
        return None;
    };
    match to_utf8(alloc, units.as_slice()) {
        Ok(bytes) => Some(bytes),
        Err(_) => None,
    }
}

/// What is printed of a line: of an expression, or of the first of its statements.
fn print_line(alloc: Global, line: &LineTree) -> Option<Bytes> {
    match line {
        LineTree::Expr(tree) => bytes_of(alloc, print_expr(alloc, tree.get())),
        LineTree::Stmts(trees) => match trees.as_slice().first() {
            Some(tree) => bytes_of(alloc, print_stmt(alloc, tree)),
            None => None,
        },
    }
}

/// The tokens of a text, in the file of a class.
pub(crate) fn tokens_of(alloc: Global, class: &[u8], text: &[u8]) -> Option<Tokens> {
    if text.len() >= 10000 {
        return None;
    }
    let Ok(class) = Name::from_slice(alloc, class) else {
        return None;
    };
    match tokens(alloc, &class, text) {
        Ok(read) => Some(read),
        Err(_) => None,
    }
}

/// What is printed of the line that a text is read as.
fn printed_line(alloc: Global, text: &[u8]) -> Option<Bytes> {
    let read = tokens_of(alloc, b"", text)?;
    match line_of(alloc, &read) {
        Ok(line) => {
            let printed = print_line(alloc, &line);
            let_line_go(line);
            printed
        }
        Err(_) => None,
    }
}

/// What is printed of the file that a text is read as.
fn printed_class(alloc: Global, text: &[u8]) -> Option<Bytes> {
    let read = tokens_of(alloc, b"A", text)?;
    match class_of(alloc, &read) {
        Ok(tree) => {
            let printed = bytes_of(alloc, print_class(alloc, &tree));
            let_class_go(tree);
            printed
        }
        Err(_) => None,
    }
}

/// Whether something was printed, and is this text.
pub(crate) fn is_text(printed: Option<Bytes>, wanted: &str) -> bool {
    match printed {
        Some(bytes) => bytes.as_slice() == wanted.as_bytes(),
        None => false,
    }
}

/// Expressions as they are written, and as they are printed.
const EXPRESSIONS: &[(&str, &str)] = &[
    ("(a+b)*c[ 1 ]", "(a + b) * c[1]"),
    ("a+ +b", "a + +b"),
    ("a- -b", "a - -b"),
    ("a++ + b", "a++ + b"),
    ("a+++b", "a++ + b"),
    ("a---b", "a-- - b"),
    ("a- --b", "a - --b"),
    ("a+ ++b", "a + ++b"),
    ("- -x", "- -x"),
    ("+ +x", "+ +x"),
    ("-+x", "-+x"),
    ("+-x", "+-x"),
    ("- --x", "- --x"),
    ("+ ++x", "+ ++x"),
    ("++ + x", "++ +x"),
    ("-- - x", "-- -x"),
    ("-++x", "-++x"),
    ("-(-x)", "-(-x)"),
    ("!!x", "!!x"),
    ("- ~ x", "-~x"),
    ("!(a&&b)", "!(a && b)"),
    ("(int)-x", "(int) -x"),
    ("(int)+ +x", "(int) + +x"),
    ("(A)!x", "(A) !x"),
    ("(int[ ])(x)", "(int[]) (x)"),
    ("(String)\"a\"", "(String) \"a\""),
    ("a<(b>>c)", "a < (b >> c)"),
    ("a*b/c%d", "a * b / c % d"),
    ("a<<b>>c>>>d", "a << b >> c >>> d"),
    ("a<b==c>=d", "a < b == c >= d"),
    ("a<=b!=c>d", "a <= b != c > d"),
    ("a&b^c|d&&e||f", "a & b ^ c | d && e || f"),
    ("a&~b", "a & ~b"),
    ("a=b+=c-=d", "a = b += c -= d"),
    ("a*=b/=c%=d", "a *= b /= c %= d"),
    ("a<<=b>>=c>>>=d", "a <<= b >>= c >>>= d"),
    ("a&=b^=c|=d", "a &= b ^= c |= d"),
    ("a?b:c?d:-e", "a ? b : c ? d : -e"),
    ("x instanceof String [ ]", "x instanceof String[]"),
    ("new int[3][ n+1 ][ ]", "new int[3][n + 1][]"),
    ("new int[]{1,2,}", "new int[]{1, 2}"),
    ("new int[][]{{1},{},{,}}", "new int[][]{{1}, {}, {}}"),
    (
        "new A[]{new A( ),null}.length",
        "new A[]{new A(), null}.length",
    ),
    ("new A( 1,b ).c", "new A(1, b).c"),
    ("a . b . c(d) [e]", "a.b.c(d)[e]"),
    ("f(  )", "f()"),
    ("f(a,g(b,c),d)", "f(a, g(b, c), d)"),
    ("this . x", "this.x"),
    ("super . f", "super.f"),
    ("super.m ( 1,this )", "super.m(1, this)"),
    ("( ( a ) )", "((a))"),
    ("x++", "x++"),
    ("x --", "x--"),
    ("- 2147483648", "-2147483648"),
    ("-9223372036854775808L", "-9223372036854775808L"),
    ("- 1", "-1"),
    ("1-1", "1 - 1"),
    ("1 .x", "1 .x"),
    ("0x1F+017+0b1_0+1_000l", "0x1F + 017 + 0b1_0 + 1_000l"),
    ("true==false", "true == false"),
    ("'\\''+'\\u0041'+'\\101'", "'\\'' + '\\u0041' + '\\101'"),
    (
        "\"\\b\\t\\n\\f\\r\\\"\\'\\\\\\0\\u00e9\"",
        "\"\\b\\t\\n\\f\\r\\\"\\'\\\\\\0\\u00e9\"",
    ),
    ("\"a // b /* c\"", "\"a // b /* c\""),
    ("größe+\"é😀\"", "größe + \"é😀\""),
    ("a/*c*/+//d\nb", "a + b"),
    ("a / /*c*/ b", "a / b"),
];

#[test]
fn expressions_are_printed_so(rt: HostRuntime) -> Result<(), Fail> {
    for (text, wanted) in EXPRESSIONS.iter() {
        if !is_text(printed_line(rt.alloc(), text.as_bytes()), wanted) {
            return Err((*text).into());
        }
        if !is_text(printed_line(rt.alloc(), wanted.as_bytes()), wanted) {
            return Err((*wanted).into());
        }
    }
    Ok(())
}

/// Statements as they are written, and as they are printed.
const STATEMENTS: &[(&str, &str)] = &[
    (";", ";"),
    ("{}", "{ }"),
    ("{a();b();}", "{ a(); b(); }"),
    ("int x;", "int x;"),
    ("int x=1,y=2;", "int x = 1, y = 2;"),
    ("final int[]a[]={1,2},b;", "final int[] a[] = {1, 2}, b;"),
    ("A a=null;", "A a = null;"),
    ("f(1);", "f(1);"),
    ("x=1;", "x = 1;"),
    ("++x;", "++x;"),
    ("if(a)b();", "if (a) b();"),
    ("if(a)b();else c();", "if (a) b(); else c();"),
    ("if(a)if(b)c();else d();", "if (a) if (b) c(); else d();"),
    (
        "if(a){if(b)c();}else d();",
        "if (a) { if (b) c(); } else d();",
    ),
    ("while(a){b();}", "while (a) { b(); }"),
    ("do a();while(b);", "do a(); while (b);"),
    ("for(;;);", "for (;;) ;"),
    (
        "for(int i=0;i<n;i++)f();",
        "for (int i = 0; i < n; i++) f();",
    ),
    (
        "for(a=1,b=2;;a++,b--){}",
        "for (a = 1, b = 2;; a++, b--) { }",
    ),
    ("for(final A x:xs)f(x);", "for (final A x : xs) f(x);"),
    (
        "switch(x){case 1:a();break;default:{}case 'b':}",
        "switch (x) { case 1: a(); break; default: { } case 'b': }",
    ),
    ("switch(x){}", "switch (x) { }"),
    ("l:while(true)break l;", "l: while (true) break l;"),
    ("continue ;", "continue;"),
    ("continue  l;", "continue l;"),
    ("return ;", "return;"),
    ("return(x);", "return (x);"),
    ("return-x;", "return -x;"),
    ("throw new E( );", "throw new E();"),
    ("synchronized(a){b();}", "synchronized (a) { b(); }"),
    ("synchronized( A . class ){}", "synchronized (A.class) { }"),
    (
        "try{a();}catch(final E e){}catch(F f){g();}finally{b();}",
        "try { a(); } catch (final E e) { } catch (F f) { g(); } finally { b(); }",
    ),
    ("try{}finally{}", "try { } finally { }"),
    (
        "try { a.deposit(-1); } catch (Throwable caught1) { throwable1 = caught1; }",
        "try { a.deposit(-1); } catch (Throwable caught1) { throwable1 = caught1; }",
    ),
];

#[test]
fn statements_are_printed_so(rt: HostRuntime) -> Result<(), Fail> {
    for (text, wanted) in STATEMENTS.iter() {
        if !is_text(printed_line(rt.alloc(), text.as_bytes()), wanted) {
            return Err((*text).into());
        }
        if !is_text(printed_line(rt.alloc(), wanted.as_bytes()), wanted) {
            return Err((*wanted).into());
        }
    }
    Ok(())
}

/// Files as they are written, and as they are printed.
const FILES: &[(&str, &str)] = &[
    ("class A{}", "class A\n{\n}\n"),
    (
        "import static org.junit.Assert.*;import org.junit.Test;public class AccountTest{@Test public void grows()throws Throwable{Account a=new Account(100);a.deposit(5);int int1=a.get();assertEquals(105,int1);}}",
        "import static org.junit.Assert.*;\nimport org.junit.Test;\n\npublic class AccountTest\n{\n    @Test\n    public void grows() throws Throwable\n    {\n        Account a = new Account(100);\n        a.deposit(5);\n        int int1 = a.get();\n        assertEquals(105, int1);\n    }\n}\n",
    ),
    (
        "class A extends B implements C,D{private A x;private final int[]y={1},z[];static{f();}{g();}A(final int a,B[]b[])throws E,F{this(a);}; abstract int m();}",
        "class A extends B implements C, D\n{\n    private A x;\n    private final int[] y = {1}, z[];\n\n    static\n    {\n        f();\n    }\n\n    {\n        g();\n    }\n\n    A(final int a, B[] b[]) throws E, F\n    {\n        this(a);\n    }\n\n    ;\n\n    abstract int m();\n}\n",
    ),
    (
        "public interface A extends B,C{int X=1;void m(int a);}",
        "public interface A extends B, C\n{\n    int X = 1;\n\n    void m(int a);\n}\n",
    ),
    (
        "class A{@Test(expected=E.class)@Override public synchronized static void m(){if(a){b();}else{c();}return;}}",
        "class A\n{\n    @Test(expected = E.class)\n    @Override\n    public synchronized static void m()\n    {\n        if (a) { b(); } else { c(); }\n        return;\n    }\n}\n",
    ),
];

#[test]
fn files_are_printed_so(rt: HostRuntime) -> Result<(), Fail> {
    for (text, wanted) in FILES.iter() {
        if !is_text(printed_class(rt.alloc(), text.as_bytes()), wanted) {
            return Err((*text).into());
        }
        if !is_text(printed_class(rt.alloc(), wanted.as_bytes()), wanted) {
            return Err((*wanted).into());
        }
    }
    Ok(())
}
