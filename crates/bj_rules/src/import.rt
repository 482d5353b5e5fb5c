ghost use Rattle.std.specs.Prelude.{◌≡◌, ◌&&◌};
ghost use Rattle.std.specs.Str.{bytes_eq};
ghost use Rattle.bj_rules.specs.Words as spelled;
ghost use Rattle.bj_rules.specs.Imports as spec;
ghost use Rattle.bj_rules.specs.Rules as rules;

use crate::Misfit;
use crate::words::{is_one_of, is_word};
use bj_base::FaultCode;
use bj_tree::{ImportTree, NamedPlace};

const LANG: [&str; 35] = [
    "Object",
    "String",
    "StringBuilder",
    "Math",
    "Integer",
    "Long",
    "Runnable",
    "Thread",
    "System",
    "Throwable",
    "Exception",
    "RuntimeException",
    "Error",
    "InterruptedException",
    "ArithmeticException",
    "NullPointerException",
    "ClassCastException",
    "ArrayStoreException",
    "NegativeArraySizeException",
    "IndexOutOfBoundsException",
    "IllegalArgumentException",
    "IllegalStateException",
    "IllegalMonitorStateException",
    "UnsupportedOperationException",
    "ArrayIndexOutOfBoundsException",
    "StringIndexOutOfBoundsException",
    "NumberFormatException",
    "IllegalThreadStateException",
    "AssertionError",
    "VirtualMachineError",
    "LinkageError",
    "OutOfMemoryError",
    "StackOverflowError",
    "ExceptionInInitializerError",
    "NoClassDefFoundError",
];

const UTIL: [&str; 2] = ["Scanner", "NoSuchElementException"];

const IO: [&str; 2] = ["PrintStream", "InputStream"];

const JUNIT: [&str; 4] = ["Assert", "Test", "Before", "After"];

const ASSERT: [&str; 8] = [
    "assertEquals",
    "assertTrue",
    "assertFalse",
    "assertNull",
    "assertNotNull",
    "assertSame",
    "assertNotSame",
    "fail",
];

fn is_lang_class(class: &[u16]) -> bool
    ensures { result ≡ spelled.is_one_of spec.lang_classes class.now }
{
    is_one_of(class, &LANG)
}

fn is_util_class(class: &[u16]) -> bool
    ensures { result ≡ spelled.is_one_of spec.util_classes class.now }
{
    is_one_of(class, &UTIL)
}

fn is_io_class(class: &[u16]) -> bool
    ensures { result ≡ spelled.is_one_of spec.io_classes class.now }
{
    is_one_of(class, &IO)
}

fn is_junit_class(class: &[u16]) -> bool
    ensures { result ≡ spelled.is_one_of spec.junit_classes class.now }
{
    is_one_of(class, &JUNIT)
}

fn is_assert_method(method: &[u16]) -> bool
    ensures { result ≡ spelled.is_one_of spec.assert_methods method.now }
{
    is_one_of(method, &ASSERT)
}

/// Whether a package's name has these two parts.
fn is_called(whole: &[u16], part: &[u16], first: &str, second: &str) -> bool
    ensures { result ≡ (bytes_eq whole.now first.now && bytes_eq part.now second.now) }
{
    is_word(whole, first) && is_word(part, second)
}

fn is_package(whole: &[u16], part: &[u16]) -> bool
    ensures { result ≡ spec.is_package whole.now part.now }
{
    is_called(whole, part, "java", "lang")
        || is_called(whole, part, "java", "util")
        || is_called(whole, part, "java", "io")
        || is_called(whole, part, "org", "junit")
}

fn is_class(whole: &[u16], part: &[u16], class: &[u16]) -> bool
    ensures { result ≡ spec.is_class whole.now part.now class.now }
{
    is_called(whole, part, "java", "lang") && is_lang_class(class)
        || is_called(whole, part, "java", "util") && is_util_class(class)
        || is_called(whole, part, "java", "io") && is_io_class(class)
        || is_called(whole, part, "org", "junit") && is_junit_class(class)
}

/// Whether it is `org.junit.Assert`.
fn is_assert(whole: &[u16], part: &[u16], class: &[u16]) -> bool
    ensures { result ≡ spec.is_assert whole.now part.now class.now }
{
    is_word(whole, "org") && is_word(part, "junit") && is_word(class, "Assert")
}

/// Whether a class is named [JLS 7.5.1].
fn names_class(names: &[NamedPlace]) -> bool
    ensures { result ≡ spec.names_class names.now }
{
    match names {
        [whole, part, class] => is_class(
            whole.name.as_slice(),
            part.name.as_slice(),
            class.name.as_slice(),
        ),
        _ => false,
    }
}

/// Whether a package is named [JLS 7.5.2].
fn names_package(names: &[NamedPlace]) -> bool
    ensures { result ≡ spec.names_package names.now }
{
    match names {
        [whole, part] => is_package(whole.name.as_slice(), part.name.as_slice()),
        _ => false,
    }
}

/// Whether a method of `org.junit.Assert` is named [JLS 7.5.3].
fn names_method(names: &[NamedPlace]) -> bool
    ensures { result ≡ spec.names_method names.now }
{
    match names {
        [whole, part, class, method] => {
            is_assert(
                whole.name.as_slice(),
                part.name.as_slice(),
                class.name.as_slice(),
            ) && is_assert_method(method.name.as_slice())
        }
        _ => false,
    }
}

/// Whether `org.junit.Assert` is named [JLS 7.5.4].
fn names_assert(names: &[NamedPlace]) -> bool
    ensures { result ≡ spec.names_assert names.now }
{
    match names {
        [whole, part, class] => is_assert(
            whole.name.as_slice(),
            part.name.as_slice(),
            class.name.as_slice(),
        ),
        _ => false,
    }
}

fn is_known(import: &ImportTree) -> bool
    ensures { result ≡ spec.is_known import.now.is_static import.now.is_on_demand import.now.names }
{
    let names = import.names.as_slice();
    match (import.is_static, import.is_on_demand) {
        (false, false) => names_class(names),
        (false, true) => names_package(names),
        (true, false) => names_method(names),
        (true, true) => names_assert(names),
    }
}

/// The misfit of an import: `Profile` at its first token where it names no class of the prelude and of JUnit's, under its real
/// package, no such package, and, after `static`, neither `org.junit.Assert` nor a method of it [JLS 7.5].
#[tactic(auto, unfolding(crate::specs::Rules::import_misfit))]
pub fn import_misfit(import: &ImportTree) -> Option<Misfit>
    ensures { result ≡ rules.import_misfit import.now }
{
    if is_known(import) {
        return None;
    }
    Some(Misfit {
        at: import.at,
        code: FaultCode::Profile,
    })
}
