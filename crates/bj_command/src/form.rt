ghost use Rattle.std.specs.Prelude.{◌≡◌, ◌≤◌, length};
ghost use Rattle.bj_command.specs.Words.{HasForm, form_in, named_form, bench_form, pad_form, quit_form, new_form, call_form, inspect_form, wait_form};

use crate::scan::{next_word, utf8_fault, word_end};

/// The most bytes of a line.
pub const LONGEST: usize = 65_536;

/// The form of a line, with places in it from 0.
#[derive(Clone, Copy, PartialEq, Eq)]
pub enum Form {
    /// No word.
    Blank,
    /// `pad`, with the place at which its text begins.
    Pad {
        text: usize,
    },
    /// `new`, with the places at which its name begins and ends and its text begins.
    New {
        start: usize,
        stop: usize,
        text: usize,
    },
    /// `call`, with the place at which its text begins.
    Call {
        text: usize,
    },
    /// `inspect`, with the places at which its name begins and ends.
    Inspect {
        start: usize,
        stop: usize,
    },
    /// `wait`
    Wait,
    /// A form that is not built.
    Unbuilt,
    /// `quit`
    Quit,
    /// No form, with the place of its fault from 1.
    Bad {
        at: usize,
    },
}

/// The form of a line in `pad` or in `bench`.
#[tactic(auto, unfolding(crate::specs::Words::form_in))]
pub fn line_form(pad: bool, line: &[u8]) -> Form
    ensures { HasForm line.now (form_in pad line.now) result }
{
    if line.len() > LONGEST {
        return Form::Bad { at: LONGEST + 1 };
    }
    match utf8_fault(line) {
        Some(at) => return Form::Bad { at },
        None => {}
    }
    let start = next_word(line, 0);
    if start == line.len() {
        return Form::Blank;
    }
    let stop = word_end(line, start);
    named_form(pad, line, start, stop)
}

/// The form that the first word names, which begins and ends at these places.
fn named_form(pad: bool, line: &[u8], start: usize, stop: usize) -> Form
    requires ordered { start ≤ stop }
    requires within { stop ≤ length line.now }
    ensures { HasForm line.now (named_form pad line.now start stop) result }
{
    let behind = next_word(line, stop);
    let word = &line[start..stop];
    if word == b"pad".as_slice() {
        return pad_form(line, behind);
    }
    if word == b"quit".as_slice() {
        return quit_form(line, behind);
    }
    if pad {
        return Form::Bad { at: start + 1 };
    }
    bench_form(line, start, stop)
}

/// The form of a line of `bench` whose first word stands at these places and is neither `pad` nor `quit`.
fn bench_form(line: &[u8], start: usize, stop: usize) -> Form
    requires ordered { start ≤ stop }
    requires within { stop ≤ length line.now }
    ensures { HasForm line.now (bench_form line.now start stop) result }
{
    let behind = next_word(line, stop);
    let word = &line[start..stop];
    if word == b"new".as_slice() {
        return new_form(line, behind);
    }
    if word == b"call".as_slice() {
        return call_form(line, behind);
    }
    if word == b"inspect".as_slice() {
        return inspect_form(line, behind);
    }
    if word == b"wait".as_slice() {
        return wait_form(line, behind);
    }
    Form::Bad { at: start + 1 }
}

/// The form of a line that begins with `pad`, behind which there is a text at a place.
fn pad_form(line: &[u8], place: usize) -> Form
    requires { place ≤ length line.now }
    ensures { HasForm line.now (pad_form line.now place) result }
{
    if place == line.len() {
        return Form::Bad { at: line.len() + 1 };
    }
    Form::Pad { text: place }
}

/// The form of a line that begins with `quit`, behind which nothing stands.
fn quit_form(line: &[u8], place: usize) -> Form
    requires { place ≤ length line.now }
    ensures { HasForm line.now (quit_form line.now place) result }
{
    if place != line.len() {
        return Form::Bad { at: place + 1 };
    }
    Form::Quit
}

/// The form of a line that begins with `new`, behind which there are a name at a place and a text.
fn new_form(line: &[u8], place: usize) -> Form
    requires { place ≤ length line.now }
    ensures { HasForm line.now (new_form line.now place) result }
{
    if place == line.len() {
        return Form::Bad { at: line.len() + 1 };
    }
    let stop = word_end(line, place);
    let text = next_word(line, stop);
    if text == line.len() {
        return Form::Bad { at: line.len() + 1 };
    }
    Form::New {
        start: place,
        stop,
        text,
    }
}

/// The form of a line that begins with `call`, behind which there is a text at a place.
fn call_form(line: &[u8], place: usize) -> Form
    requires { place ≤ length line.now }
    ensures { HasForm line.now (call_form line.now place) result }
{
    if place == line.len() {
        return Form::Bad { at: line.len() + 1 };
    }
    Form::Call { text: place }
}

/// The form of a line that begins with `inspect`, behind which there is a name at a place and no more.
fn inspect_form(line: &[u8], place: usize) -> Form
    requires { place ≤ length line.now }
    ensures { HasForm line.now (inspect_form line.now place) result }
{
    if place == line.len() {
        return Form::Bad { at: line.len() + 1 };
    }
    let stop = word_end(line, place);
    let behind = next_word(line, stop);
    if behind != line.len() {
        return Form::Bad { at: behind + 1 };
    }
    Form::Inspect { start: place, stop }
}

/// The form of a line that begins with `wait`: what stands behind it is not built.
fn wait_form(line: &[u8], place: usize) -> Form
    requires { place ≤ length line.now }
    ensures { HasForm line.now (wait_form line.now place) result }
{
    if place == line.len() {
        Form::Wait
    } else {
        Form::Unbuilt
    }
}
