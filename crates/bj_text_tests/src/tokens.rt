use bj_base::{Fault, FaultCode, JText, Name, NoMemory, Refusal};
use bj_lex::{Numeral, char_value, numeral_of, text_value, tokens};
use bj_text::{from_utf8, to_utf8};
use bj_token::{Token, TokenKind, Tokens};
use std::alloc::Global;
use std::test::Fail;

const FAULT: &str = "an answer that the table does not have";

/// How the tables name a kind of token.
fn name_of(kind: TokenKind) -> &'static str {
    match kind {
        TokenKind::Word => "word",
        TokenKind::Keyword => "keyword",
        TokenKind::Number => "number",
        TokenKind::LongNumber => "long",
        TokenKind::CharText => "char",
        TokenKind::StringText => "text",
        TokenKind::Sign => "sign",
    }
}

/// Writes a token with its kind and place.
fn show_token(rt: &HostRuntime, line: &mut Vec<u8>, token: &Token) -> Result<(), Fail> {
    let name = name_of(token.kind);
    let head = format!(in rt.alloc(); "{name} {}:{}=", token.at.line, token.at.column)?;
    line.extend_from_slice(head.as_bytes())?;
    let text = to_utf8(rt.alloc(), token.text.as_slice())
        .ok()
        .ok_or(FAULT)?;
    line.extend_from_slice(text.as_slice())?;
    line.push(b'|')?;
    Ok(())
}

/// Writes tokens with their kinds and places, and the place of the text's end.
fn show_tokens(rt: &HostRuntime, line: &mut Vec<u8>, tokens: &Tokens) -> Result<(), Fail> {
    for token in tokens.items.as_slice() {
        show_token(rt, line, token)?;
    }
    let end = format!(in rt.alloc(); ".{}:{}", tokens.end.line, tokens.end.column)?;
    line.extend_from_slice(end.as_bytes())?;
    Ok(())
}

/// Writes a fault of the class Example and its place.
fn show_fault(rt: &HostRuntime, line: &mut Vec<u8>, fault: &Fault) -> Result<(), Fail> {
    if fault.class.as_slice() != b"Example".as_slice() {
        return Err(FAULT.into());
    }
    let head = format!(in rt.alloc(); "!{:?}{}:{}", fault.code, fault.at.line, fault.at.column)?;
    line.extend_from_slice(head.as_bytes())?;
    Ok(())
}

/// Writes the tokens of a text, or its first fault.
fn show(rt: &HostRuntime, line: &mut Vec<u8>, found: &Result<Tokens, Refusal>) -> Result<(), Fail> {
    match found {
        Ok(tokens) => show_tokens(rt, line, tokens),
        Err(Refusal::Fault(fault)) => show_fault(rt, line, fault),
        Err(Refusal::NoMemory) => Err(FAULT.into()),
    }
}

/// The tokens of a text with their kinds and places and the place of its end, or its first fault and its place.
fn shown(rt: &HostRuntime, bytes: &[u8]) -> Result<Vec<u8>, Fail> {
    if bytes.len() >= 1000 {
        return Err(FAULT.into());
    }
    let class = Name::from_slice(rt.alloc(), b"Example").ok().ok_or(FAULT)?;
    let found = tokens(rt.alloc(), &class, bytes);
    let mut line = Vec::new(rt.alloc());
    show(rt, &mut line, &found)?;
    Ok(line)
}

/// Compares what is shown of each text with what is wanted, and fails with the first text that is shown otherwise.
fn compare(rt: &HostRuntime, rows: &[(&'static str, &'static str)]) -> Result<(), Fail> {
    for row in rows {
        let line = shown(rt, row.0.as_bytes())?;
        if line.as_slice() != row.1.as_bytes() {
            return Err(row.0.into());
        }
    }
    Ok(())
}

/// Texts of blanks and comments, with their tokens.
const BLANKS: [(&str, &str); 24] = [
    ("", ".1:1"),
    ("a", "word 1:1=a|.1:2"),
    ("a+1", "word 1:1=a|sign 1:2=+|number 1:3=1|.1:4"),
    (" \t\u{c}x", "word 1:4=x|.1:5"),
    ("a\nb", "word 1:1=a|word 2:1=b|.2:2"),
    ("a\rb", "word 1:1=a|word 2:1=b|.2:2"),
    ("a\r\nb", "word 1:1=a|word 2:1=b|.2:2"),
    ("a\n\rb", "word 1:1=a|word 3:1=b|.3:2"),
    ("// c\nx", "word 2:1=x|.2:2"),
    ("// c", ".1:5"),
    ("/* c */x", "word 1:8=x|.1:9"),
    ("/*\n*/x", "word 2:3=x|.2:4"),
    ("/*", "!Open1:1"),
    ("x /* /", "!Open1:3"),
    ("/**/x", "word 1:5=x|.1:6"),
    ("/*/", "!Open1:1"),
    ("a/b", "word 1:1=a|sign 1:2=/|word 1:3=b|.1:4"),
    ("\n\n", ".3:1"),
    ("\r\r\nx", "word 3:1=x|.3:2"),
    ("// \\u000a x", ".1:12"),
    ("//\rx//\r\ny", "word 2:1=x|word 3:1=y|.3:2"),
    ("/***/x", "word 1:6=x|.1:7"),
    ("/* * / /* */x", "word 1:13=x|.1:14"),
    ("a/*\r\n\u{1d4b3}*/b", "word 1:1=a|word 2:5=b|.2:6"),
];

#[test]
fn blanks_are_passed_over_and_counted(rt: HostRuntime) -> Result<(), Fail> {
    compare(&rt, &BLANKS)
}

/// Texts of words, with their tokens.
const WORDS: [(&str, &str); 13] = [
    (
        "class X {}",
        "keyword 1:1=class|word 1:7=X|sign 1:9={|sign 1:10=}|.1:11",
    ),
    (
        "true null false",
        "keyword 1:1=true|keyword 1:6=null|keyword 1:11=false|.1:16",
    ),
    ("goto", "!Profile1:1"),
    ("x assert", "!Profile1:3"),
    ("classes", "word 1:1=classes|.1:8"),
    ("$a_1 _", "word 1:1=$a_1|word 1:6=_|.1:7"),
    ("\u{e9}", "word 1:1=\u{e9}|.1:2"),
    ("\u{1d4b3}y", "word 1:1=\u{1d4b3}y|.1:4"),
    ("a\u{301}", "word 1:1=a\u{301}|.1:3"),
    ("\u{301}", "!Char1:1"),
    ("Class x1$", "word 1:1=Class|word 1:7=x1$|.1:10"),
    ("\u{20ac}", "!Char1:1"),
    ("a\u{20ac}", "!Char1:2"),
];

#[test]
fn words_are_identifiers_or_keywords(rt: HostRuntime) -> Result<(), Fail> {
    compare(&rt, &WORDS)
}

/// Texts of numbers, with their tokens.
const NUMBERS: [(&str, &str); 57] = [
    ("0", "number 1:1=0|.1:2"),
    ("2147483647", "number 1:1=2147483647|.1:11"),
    ("2147483648", "number 1:1=2147483648|.1:11"),
    ("2147483649", "!Wide1:1"),
    (
        "9223372036854775808L",
        "long 1:1=9223372036854775808L|.1:21",
    ),
    ("9223372036854775809L", "!Wide1:1"),
    ("99999999999999999999999L", "!Wide1:1"),
    ("0xFFFFFFFF", "number 1:1=0xFFFFFFFF|.1:11"),
    ("0x100000000", "!Wide1:1"),
    (
        "0xFFFF_FFFF_FFFF_FFFFL",
        "long 1:1=0xFFFF_FFFF_FFFF_FFFFL|.1:23",
    ),
    ("0x1_0000_0000_0000_0000L", "!Wide1:1"),
    ("0377", "number 1:1=0377|.1:5"),
    ("0_7", "number 1:1=0_7|.1:4"),
    ("08", "!Char1:1"),
    ("037777777777", "number 1:1=037777777777|.1:13"),
    ("040000000000", "!Wide1:1"),
    ("0b1010", "number 1:1=0b1010|.1:7"),
    ("0b2", "!Char1:1"),
    ("0x", "!Char1:1"),
    ("0x_1", "!Char1:1"),
    ("1_", "!Char1:1"),
    ("1__0", "number 1:1=1__0|.1:5"),
    ("12ab", "!Char1:1"),
    ("1l", "long 1:1=1l|.1:3"),
    ("1.5", "!Profile1:1"),
    ("1.", "!Profile1:1"),
    (".5", "!Profile1:1"),
    ("1e5", "!Profile1:1"),
    ("1f", "!Profile1:1"),
    ("0x1p3", "!Profile1:1"),
    ("0x.8p1", "!Profile1:1"),
    ("1e+5", "!Profile1:1"),
    ("08.5", "!Profile1:1"),
    ("09f", "!Profile1:1"),
    ("1e", "!Char1:1"),
    ("00", "number 1:1=00|.1:3"),
    ("0_", "!Char1:1"),
    ("0L", "long 1:1=0L|.1:3"),
    ("0X1f", "number 1:1=0X1f|.1:5"),
    ("0B11", "number 1:1=0B11|.1:5"),
    ("0b", "!Char1:1"),
    ("1_L", "!Char1:1"),
    ("1$", "!Char1:1"),
    ("2147483648L", "long 1:1=2147483648L|.1:12"),
    (
        "01777777777777777777777L",
        "long 1:1=01777777777777777777777L|.1:25",
    ),
    ("02000000000000000000000L", "!Wide1:1"),
    (
        "0b11111111111111111111111111111111",
        "number 1:1=0b11111111111111111111111111111111|.1:35",
    ),
    ("0b100000000000000000000000000000000", "!Wide1:1"),
    (
        "x = -2147483648",
        "word 1:1=x|sign 1:3==|sign 1:5=-|number 1:6=2147483648|.1:16",
    ),
    ("1E-3", "!Profile1:1"),
    ("1d", "!Profile1:1"),
    ("0x1e+5", "number 1:1=0x1e|sign 1:5=+|number 1:6=5|.1:7"),
    ("1e-x", "!Char1:1"),
    ("1 .5", "!Profile1:3"),
    ("1L.5", "!Profile1:3"),
    ("4294967296 #", "!Wide1:1"),
    ("# 4294967296", "!Char1:1"),
];

#[test]
fn numbers_are_of_a_form_and_a_width(rt: HostRuntime) -> Result<(), Fail> {
    compare(&rt, &NUMBERS)
}

/// Texts of literals in quotes, with their tokens.
const QUOTED: [(&str, &str); 34] = [
    ("'a'", "char 1:1='a'|.1:4"),
    ("'\\n'", "char 1:1='\\n'|.1:5"),
    ("''", "!Char1:1"),
    ("'ab'", "!Char1:1"),
    ("'a", "!Open1:1"),
    ("'\\'", "!Open1:1"),
    ("'\u{1f600}'", "!Char1:1"),
    ("'\\u0041'", "char 1:1='\\u0041'|.1:9"),
    ("'\\u000a'", "!Char1:1"),
    ("'\\uu0041'", "!Char1:1"),
    ("'\\377'", "char 1:1='\\377'|.1:7"),
    ("'\\400'", "!Char1:1"),
    ("\"a\\\"b\"", "text 1:1=\"a\\\"b\"|.1:7"),
    ("\"a", "!Open1:1"),
    ("x \"a\nb\"", "!Open1:3"),
    ("\"\\q\"", "!Char1:1"),
    ("x \"\"", "word 1:1=x|text 1:3=\"\"|.1:5"),
    ("'\\''", "char 1:1='\\''|.1:5"),
    ("'\"'", "char 1:1='\"'|.1:4"),
    ("'''", "!Char1:1"),
    ("'\\\\'", "char 1:1='\\\\'|.1:5"),
    ("'\\0'", "char 1:1='\\0'|.1:5"),
    ("'\\8'", "!Char1:1"),
    ("\"\\400\"", "text 1:1=\"\\400\"|.1:7"),
    (
        "\"\\b\\t\\n\\f\\r\\\"\\'\\\\\"",
        "text 1:1=\"\\b\\t\\n\\f\\r\\\"\\'\\\\\"|.1:19",
    ),
    ("\"\\s\"", "!Char1:1"),
    ("x \"\\u000d\"", "!Char1:3"),
    ("\"\\u0022\"", "!Char1:1"),
    ("'\\u005C'", "!Char1:1"),
    ("\"\\u00e9\"", "text 1:1=\"\\u00e9\"|.1:9"),
    ("\"\\u00e\"", "!Char1:1"),
    ("\"\\q", "!Open1:1"),
    ("'\rx'", "!Open1:1"),
    ("\"// /*\"x", "text 1:1=\"// /*\"|word 1:8=x|.1:9"),
];

#[test]
fn literals_in_quotes_are_closed_and_escaped(rt: HostRuntime) -> Result<(), Fail> {
    compare(&rt, &QUOTED)
}

/// Texts of signs, with their tokens.
const SIGNS: [(&str, &str); 20] = [
    ("a.b", "word 1:1=a|sign 1:2=.|word 1:3=b|.1:4"),
    (">>>=", "sign 1:1=>>>=|.1:5"),
    (">>>>=", "sign 1:1=>>>|sign 1:4=>=|.1:6"),
    ("a+++b", "word 1:1=a|sign 1:2=++|sign 1:4=+|word 1:5=b|.1:6"),
    ("->", "!Profile1:1"),
    ("::", "!Profile1:1"),
    ("...", "!Profile1:1"),
    ("..", "sign 1:1=.|sign 1:2=.|.1:3"),
    ("@Test", "sign 1:1=@|word 1:2=Test|.1:6"),
    (
        "( ) { } [ ] ; , . @",
        "sign 1:1=(|sign 1:3=)|sign 1:5={|sign 1:7=}|sign 1:9=[|sign 1:11=]|sign 1:13=;|sign 1:15=,|sign 1:17=.|sign 1:19=@|.1:20",
    ),
    (
        "= > < ! ~ ? :",
        "sign 1:1==|sign 1:3=>|sign 1:5=<|sign 1:7=!|sign 1:9=~|sign 1:11=?|sign 1:13=:|.1:14",
    ),
    (
        "== >= <= != && || ++ --",
        "sign 1:1===|sign 1:4=>=|sign 1:7=<=|sign 1:10=!=|sign 1:13=&&|sign 1:16=|||sign 1:19=++|sign 1:22=--|.1:24",
    ),
    (
        "+ - * / & | ^ %",
        "sign 1:1=+|sign 1:3=-|sign 1:5=*|sign 1:7=/|sign 1:9=&|sign 1:11=||sign 1:13=^|sign 1:15=%|.1:16",
    ),
    (
        "+= -= *= /= &= |= ^= %=",
        "sign 1:1=+=|sign 1:4=-=|sign 1:7=*=|sign 1:10=/=|sign 1:13=&=|sign 1:16=|=|sign 1:19=^=|sign 1:22=%=|.1:24",
    ),
    (
        "<< >> >>> <<= >>=",
        "sign 1:1=<<|sign 1:4=>>|sign 1:7=>>>|sign 1:11=<<=|sign 1:15=>>=|.1:18",
    ),
    ("-->", "sign 1:1=--|sign 1:3=>|.1:4"),
    ("~=", "sign 1:1=~|sign 1:2==|.1:3"),
    ("a=-1", "word 1:1=a|sign 1:2==|sign 1:3=-|number 1:4=1|.1:5"),
    ("a->b", "!Profile1:2"),
    ("..5", "!Profile1:2"),
];

#[test]
fn signs_are_the_longest(rt: HostRuntime) -> Result<(), Fail> {
    compare(&rt, &SIGNS)
}

/// Texts with a character that begins no token, with their faults.
const NO_TOKENS: [(&str, &str); 11] = [
    ("\u{1f600}", "!Char1:1"),
    ("a\u{1f600}", "!Char1:2"),
    ("#", "!Char1:1"),
    ("\\u0041", "!Char1:1"),
    ("a\n  \u{1d4b3} +=#", "!Char2:8"),
    ("\u{b}", "!Char1:1"),
    ("a\u{a0}b", "!Char1:2"),
    ("\u{feff}a", "!Char1:1"),
    ("\0", "!Char1:1"),
    ("a\\u0041", "!Char1:2"),
    ("`", "!Char1:1"),
];

#[test]
fn a_character_that_begins_no_token_is_a_fault(rt: HostRuntime) -> Result<(), Fail> {
    compare(&rt, &NO_TOKENS)
}

/// What a word alone is read as.
#[derive(Clone, Copy, PartialEq, Eq)]
enum WordKind {
    /// A keyword or a literal by a word.
    Keyword,
    /// A fault, since the profile leaves it out.
    LeftOut,
    /// Anything else.
    Other,
}

/// What a text was read as, by its first token or its fault.
fn kind_found(found: &Result<Tokens, Refusal>) -> WordKind {
    match found {
        Ok(tokens) => match tokens.items.get(0) {
            Some(token) if token.kind == TokenKind::Keyword => WordKind::Keyword,
            _ => WordKind::Other,
        },
        Err(Refusal::Fault(fault)) if fault.code == FaultCode::Profile => WordKind::LeftOut,
        Err(_) => WordKind::Other,
    }
}

/// What a word is read as.
fn kind_of(alloc: Global, word: &str) -> WordKind {
    if word.len() >= 1000 {
        return WordKind::Other;
    }
    let Ok(class) = Name::from_slice(alloc, b"Example") else {
        return WordKind::Other;
    };
    let found = tokens(alloc, &class, word.as_bytes());
    kind_found(&found)
}

/// The reserved words that the profile has.
const RESERVED: [&str; 41] = [
    "abstract",
    "continue",
    "for",
    "new",
    "switch",
    "default",
    "if",
    "synchronized",
    "boolean",
    "do",
    "private",
    "this",
    "break",
    "implements",
    "protected",
    "throw",
    "else",
    "import",
    "public",
    "throws",
    "case",
    "instanceof",
    "return",
    "catch",
    "extends",
    "int",
    "try",
    "char",
    "final",
    "interface",
    "static",
    "void",
    "class",
    "finally",
    "long",
    "volatile",
    "super",
    "while",
    "true",
    "false",
    "null",
];

#[test]
fn the_reserved_words_are_no_identifiers(rt: HostRuntime) -> Result<(), Fail> {
    for word in RESERVED.iter() {
        if kind_of(rt.alloc(), word) != WordKind::Keyword {
            return Err((*word).into());
        }
    }
    Ok(())
}

/// The reserved words that the profile leaves out.
const LEFT_OUT: [&str; 12] = [
    "assert",
    "byte",
    "const",
    "double",
    "enum",
    "float",
    "goto",
    "native",
    "package",
    "short",
    "strictfp",
    "transient",
];

#[test]
fn the_words_left_out_are_faults_of_the_profile(rt: HostRuntime) -> Result<(), Fail> {
    for word in LEFT_OUT.iter() {
        if kind_of(rt.alloc(), word) != WordKind::LeftOut {
            return Err((*word).into());
        }
    }
    Ok(())
}

/// Texts that are not UTF-8, with their faults.
const NO_UTF8: [(&[u8], &str); 6] = [
    (b"a \xff", "!Char1:3"),
    (b"/* \xff */", "!Char1:4"),
    (b"/* \xff", "!Open1:1"),
    (b"\"\xc3\x28\"", "!Char1:2"),
    (b"# \xff", "!Char1:1"),
    (b"a\n\xf0\x9d\x92\xb3\xc3", "!Char2:3"),
];

#[test]
fn a_byte_that_is_not_utf8_is_a_fault_at_its_place(rt: HostRuntime) -> Result<(), Fail> {
    for (bytes, wanted) in NO_UTF8.iter() {
        let line = shown(&rt, bytes)?;
        if line.as_slice() != wanted.as_bytes() {
            return Err((*wanted).into());
        }
    }
    Ok(())
}

/// Whether a numeral stands for this.
fn is_numeral(alloc: Global, text: &str, wanted: Numeral) -> bool {
    match from_utf8(alloc, text.as_bytes()) {
        Ok(units) => !units.is_empty() && numeral_of(units.as_slice()) == wanted,
        Err(_) => false,
    }
}

/// Numerals with what they stand for.
const NUMERALS: [(&str, Numeral); 7] = [
    ("0x7f", Numeral::Value(127)),
    ("0b1_01L", Numeral::Value(5)),
    ("017", Numeral::Value(15)),
    ("1_000", Numeral::Value(1000)),
    ("0xFFFFFFFFFFFFFFFFL", Numeral::Value(u64::MAX)),
    ("4294967296", Numeral::TooWide),
    ("019", Numeral::Malformed),
];

#[test]
fn numerals_stand_for_their_numbers(rt: HostRuntime) -> Result<(), Fail> {
    for (text, wanted) in NUMERALS.iter() {
        if !is_numeral(rt.alloc(), text, *wanted) {
            return Err((*text).into());
        }
    }
    Ok(())
}

/// Literals of characters, with their units.
const LITERALS: [(&str, Option<u16>); 9] = [
    ("'a'", Some(97)),
    ("'\\n'", Some(10)),
    ("'\\0'", Some(0)),
    ("'\\377'", Some(255)),
    ("'\\u0041'", Some(65)),
    ("'\\uFFFF'", Some(65535)),
    ("'\u{e9}'", Some(233)),
    ("'\\400'", None),
    ("''", None),
];

/// Whether a literal of a character stands for this unit, or for none.
fn is_unit(alloc: Global, literal: &str, wanted: Option<u16>) -> bool {
    match from_utf8(alloc, literal.as_bytes()) {
        Ok(units) => char_value(alloc, units.as_slice()) == Ok(wanted),
        Err(_) => false,
    }
}

#[test]
fn literals_of_characters_stand_for_their_units(rt: HostRuntime) -> Result<(), Fail> {
    for (literal, wanted) in LITERALS.iter() {
        if !is_unit(rt.alloc(), literal, *wanted) {
            return Err((*literal).into());
        }
    }
    Ok(())
}

/// Whether a literal of a text stands for these units.
fn stands_for(found: &Result<Option<JText>, NoMemory>, wanted: &[u16]) -> bool {
    match found {
        Ok(Some(units)) => units.as_slice() == wanted,
        _ => false,
    }
}

#[test]
fn a_literal_of_a_text_stands_for_its_units(rt: HostRuntime) {
    let alloc = rt.alloc();
    let found = match from_utf8(alloc, b"\"a\\\"\\101\\60\"") {
        Ok(literal) => {
            let value = text_value(alloc, literal.as_slice());
            stands_for(&value, &[97, 34, 65, 48])
        }
        Err(_) => false,
    };
    assert!(rt; found);
}
