ghost use Rattle.std.specs.Prelude.{◌≡◌};
ghost use Rattle.bj_sum.specs.Cells.{is_letter as spec_is_letter};
ghost use Rattle.bj_bench.specs.Names.{are_letters as spec_are_letters, is_class_in, is_plain as spec_is_plain};

use bj_core::{Class, Program};

/// Whether a byte is an ASCII letter.
fn is_letter(byte: u8) -> bool
    ensures { result ≡ spec_is_letter byte }
{
    (byte >= b'A' && byte <= b'Z') || (byte >= b'a' && byte <= b'z')
}

/// Whether all bytes are ASCII letters.
fn are_letters(name: &[u8]) -> bool
    ensures { result ≡ spec_are_letters name.now }
{
    for byte in name {
        if !is_letter(*byte) {
            return false;
        }
    }
    true
}

/// Whether one of the classes has the name.
fn is_class(classes: &[Class], name: &[u8]) -> bool
    ensures { result ≡ is_class_in classes.now name.now }
{
    for class in classes {
        if class.name.as_slice() == name {
            return true;
        }
    }
    false
}

/// Whether a name is built: it is of ASCII letters, and no class has it. Takes no memory.
pub fn is_plain(program: &Program, name: &[u8]) -> bool
    ensures { result ≡ spec_is_plain program.now name.now }
{
    are_letters(name) && !is_class(program.classes.as_slice(), name)
}
