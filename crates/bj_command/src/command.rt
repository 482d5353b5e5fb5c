ghost use Rattle.std.specs.Prelude.{◌≡◌, ℕ, Bool, true, false, List, Ok};
ghost use Rattle.bj_command.specs.Words.{IsForm, IsOfPad, IsShort, form_in, form_of, is_quit};

use crate::form::{Form, line_form};
use bj_base::{Bytes, Name, NoMemory, Seq};
use std::alloc::Global;

/// What a console line asks for, named after its first word.
#[derive(Drop)]
pub enum Command {
    /// A line without a word.
    Blank,
    /// `pad L`, with the text of Java `L`.
    Pad { text: Bytes },
    /// `new x C(args)`, with the name `x` and the text of Java `C(args)`.
    New { name: Name, text: Bytes },
    /// `call E`, with the text of Java `E`.
    Call { text: Bytes },
    /// `inspect x`, with the name `x`.
    Inspect { name: Name },
    /// `wait`
    Wait,
    /// A line that begins with a word of the console and has a form that is not built.
    Unbuilt,
    /// `quit`
    Quit,
}

/// Why a line is not of a form of the console.
#[derive(Clone, Copy, Debug, PartialEq, Eq)]
pub enum LineFault {
    /// The place of the first byte that does not fit, counted from 1: where the line is too long, the first byte past its
    /// greatest length; else the first byte that is no UTF-8; else the first byte of the first word that does not
    /// fit, or the place past the end where a word is missing.
    BadLine { at: usize },
    /// Want of memory.
    NoMemory,
}

impl From<NoMemory> for LineFault {
    ghost use Rattle.bj_command.specs.declared.command.LineFault.TheVariants as fault;

    ghost from_gives = { λ _ e. e ≡ fault.NoMemory };

    fn from(_fault: NoMemory) -> LineFault {
        LineFault::NoMemory
    }
}

/// What a line of `pad` or of `bench` asks for.
fn command_of(alloc: Global, pad: bool, line: &[u8]) -> Result<Command, LineFault>
    ensures { IsForm result (form_in pad line.now) }
{
    match line_form(pad, line) {
        Form::Blank => Ok(Command::Blank),
        Form::Pad { text } => {
            let text = Seq::from_slice(alloc, &line[text..])?;
            Ok(Command::Pad { text })
        }
        Form::New { start, stop, text } => {
            let name = Name::from_slice(alloc, &line[start..stop])?;
            let text = Seq::from_slice(alloc, &line[text..])?;
            Ok(Command::New { name, text })
        }
        Form::Call { text } => {
            let text = Seq::from_slice(alloc, &line[text..])?;
            Ok(Command::Call { text })
        }
        Form::Inspect { start, stop } => {
            let name = Name::from_slice(alloc, &line[start..stop])?;
            Ok(Command::Inspect { name })
        }
        Form::Wait => Ok(Command::Wait),
        Form::Unbuilt => Ok(Command::Unbuilt),
        Form::Quit => Ok(Command::Quit),
        Form::Bad { at } => Err(LineFault::BadLine { at }),
    }
}

/// What a line of `bench` asks for.
///
/// # Errors
///
/// `BadLine` with its place, exactly where the line is of no form; `NoMemory` only where it is of a form that keeps a name or
/// a text.
#[tactic(auto, using(crate::proofs::Short::short_form))]
pub fn read_line(alloc: Global, line: &[u8]) -> Result<Command, LineFault>
    ensures form { IsForm result (form_of line.now) }
    ensures short { IsShort (form_of line.now) }
{
    command_of(alloc, false, line)
}

/// What a line of `pad` asks for, as `read_line` does: there a line that begins with a word other than `pad` and `quit` is
/// bad at that word.
///
/// # Errors
///
/// As those of `read_line`.
#[tactic(auto, using(crate::proofs::Short::short_form))]
pub fn read_pad_line(alloc: Global, line: &[u8]) -> Result<Command, LineFault>
    ensures form { IsForm result (form_in true line.now) }
    ensures short { IsShort (form_in true line.now) }
{
    command_of(alloc, true, line)
}

/// Whether a line is `quit`, which `pad` and `bench` read alike. Takes no memory.
pub fn is_quit(line: &[u8]) -> bool
    ensures { result ≡ is_quit line.now }
{
    matches!(line_form(false, line), Form::Quit)
}

/// A line that is `quit` is so in `pad` as in `bench`, and no other is.
#[tactic(auto, using(crate::proofs::Quits::quit_in, crate::proofs::Quits::quit_from))]
pub fn quit_is_quit()
    ensures quit { (pad : Bool) (line : List ℕ) → is_quit line ≡ true → form_in pad line ≡ Ok Command.Quit }
    ensures only { (pad : Bool) (line : List ℕ) → form_in pad line ≡ Ok Command.Quit → is_quit line ≡ true }
{}

/// In `pad` a line asks for nothing but a codepad text, `quit`, or nothing.
#[tactic(auto, using(crate::proofs::Pads::form_of_pad))]
pub fn pad_reads_few_forms()
    ensures { (line : List ℕ) → IsOfPad (form_in true line) }
{}
