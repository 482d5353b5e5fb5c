//! What is written of tokens, worked by hand.

use TokenKind::{CharText, Keyword, LongNumber, Number, Sign, StringText, Word};
use bj_base::{Bytes, NoMemory};
use bj_text::{to_utf8, utf16};
use bj_token::TokenKind;
use bj_writer::Writer;
use std::alloc::Global;
use std::test::Fail;

/// Tokens, and what is written of them.
const TABLE: &[(&[(TokenKind, &str)], &str)] = &[
    (&[(Word, "a"), (Word, "b")], "a b"),
    (&[(Sign, "-"), (Sign, "-"), (Word, "x")], "- -x"),
    (&[(Sign, "+"), (Sign, "++"), (Word, "x")], "+ ++x"),
    (&[(Sign, "!"), (Sign, "!"), (Word, "x")], "!!x"),
    (&[(Sign, "-"), (Sign, "~"), (Word, "x")], "-~x"),
    (&[(Sign, "-"), (Number, "1")], "-1"),
    (&[(Number, "1"), (Sign, "."), (Word, "x")], "1 .x"),
    (
        &[(LongNumber, "0x1eL"), (Sign, "-"), (Number, "1")],
        "0x1eL -1",
    ),
    (&[(Number, "2"), (Sign, "*"), (Number, "3")], "2*3"),
    (
        &[
            (Sign, "("),
            (Keyword, "int"),
            (Sign, ")"),
            (Sign, "-"),
            (Word, "x"),
        ],
        "(int)-x",
    ),
    (&[(Sign, "."), (Sign, "*")], ".*"),
    (&[(Sign, "."), (Number, "5")], ". 5"),
    (&[(Sign, "/"), (Sign, "/")], "/ /"),
    (&[(Sign, "/"), (Sign, "*")], "/ *"),
    (&[(Sign, ">"), (Sign, ">=")], "> >="),
    (&[(Sign, "="), (Sign, "==")], "= =="),
    (&[(Word, "a"), (StringText, "\"b\"")], "a\"b\""),
    (&[(CharText, "'b'"), (Word, "a")], "'b'a"),
    (&[(Keyword, "new"), (Word, "A")], "new A"),
    (
        &[(Keyword, "return"), (Number, "1"), (Sign, ";")],
        "return 1;",
    ),
    (&[], ""),
];

/// Writes a token, by the call for its kind.
fn write(alloc: Global, writer: &mut Writer, kind: TokenKind, text: &str) -> Result<(), NoMemory> {
    match kind {
        Keyword | Sign => writer.mark(kind, text.as_bytes()),
        Word | Number | LongNumber | CharText | StringText => {
            let units = utf16(alloc, text)?;
            writer.token(kind, units.as_slice())
        }
    }
}

/// The bytes of what is written of the tokens.
fn written(alloc: Global, tokens: &[(TokenKind, &str)]) -> Result<Bytes, NoMemory> {
    let mut writer = Writer::new(alloc);
    for (kind, text) in tokens {
        write(alloc, &mut writer, *kind, text)?;
    }
    to_utf8(alloc, writer.into_text().as_slice())
}

/// Whether a text was made, and is this one.
fn is_text(made: &Result<Bytes, NoMemory>, wanted: &str) -> bool {
    match made {
        Ok(text) => text.as_slice() == wanted.as_bytes(),
        Err(_) => false,
    }
}

#[test]
fn tokens_are_kept_apart(rt: HostRuntime) -> Result<(), Fail> {
    for (tokens, wanted) in TABLE.iter() {
        if !is_text(&written(rt.alloc(), tokens), wanted) {
            return Err("tokens that the table writes otherwise".into());
        }
    }
    Ok(())
}

/// `a`, a space, `b`, a line end with two spaces, `c`, and an empty line.
fn laid_out(alloc: Global) -> Result<Bytes, NoMemory> {
    let mut writer = Writer::new(alloc);
    write(alloc, &mut writer, Word, "a")?;
    writer.space()?;
    write(alloc, &mut writer, Word, "b")?;
    writer.line(2)?;
    write(alloc, &mut writer, Word, "c")?;
    writer.line(0)?;
    to_utf8(alloc, writer.into_text().as_slice())
}

#[test]
fn white_space_stands_for_the_space_between(rt: HostRuntime) -> Result<(), Fail> {
    if is_text(&laid_out(rt.alloc()), "a b\n  c\n") {
        Ok(())
    } else {
        Err("a text that is laid out otherwise".into())
    }
}
