use bj_base::JText;
use bj_text::{
    EscapeFault, Quote, TextFault, decimal, escape, from_utf8, parse_int, to_utf8, unescape,
};
use std::alloc::Global;
use std::test::Fail;

/// Whether units are written so in UTF-8.
fn is_written_so(alloc: Global, units: &[u16], wanted: &[u8]) -> bool {
    match to_utf8(alloc, units) {
        Ok(bytes) => bytes.as_slice() == wanted,
        Err(_) => false,
    }
}

/// Whether the units of a text are escaped to this.
fn is_escaped_so(alloc: Global, text: &str, quote: Quote, wanted: &str) -> bool {
    let Ok(units) = from_utf8(alloc, text.as_bytes()) else {
        return false;
    };
    match escape(alloc, units.as_slice(), quote) {
        Ok(written) => is_written_so(alloc, written.as_slice(), wanted.as_bytes()),
        Err(_) => false,
    }
}

/// Texts, for what they are escaped, and to what.
const ESCAPES: [(&str, Quote, &str); 7] = [
    ("a\"b'c", Quote::Plain, "a\"b'c"),
    ("a\"b'c", Quote::Text, "a\\\"b'c"),
    ("a\"b'c", Quote::Source, "a\\\"b'c"),
    ("a\"b'c", Quote::Char, "a\"b\\'c"),
    ("\u{8}\t\n\u{c}\r\\", Quote::Plain, "\\b\\t\\n\\f\\r\\\\"),
    ("\u{0}\u{1f}\u{7f}", Quote::Plain, "\\000\\037\\177"),
    ("\u{e9}\u{1f600}", Quote::Source, "\u{e9}\u{1f600}"),
];

#[test]
fn escapes_by_quote(rt: HostRuntime) -> Result<(), Fail> {
    for (text, quote, wanted) in ESCAPES.iter() {
        if !is_escaped_so(rt.alloc(), text, *quote, wanted) {
            return Err((*text).into());
        }
    }
    Ok(())
}

/// Three surrogates without their pair, and a pair between them.
const UNPAIRED: [u16; 4] = [0xDE00, 0xD83D, 0xDE00, 0xD83D];

/// Whether those units are escaped so in a source.
fn is_source_of_unpaired(alloc: Global, wanted: &[u8]) -> bool {
    match escape(alloc, UNPAIRED.as_slice(), Quote::Source) {
        Ok(written) => is_written_so(alloc, written.as_slice(), wanted),
        Err(_) => false,
    }
}

#[test]
fn an_unpaired_surrogate_is_escaped_in_a_source_alone(rt: HostRuntime) {
    let alloc = rt.alloc();
    assert!(&rt; is_source_of_unpaired(alloc, "\\uDE00\u{1f600}\\uD83D".as_bytes()));
    assert!(&rt; is_written_so(alloc, UNPAIRED.as_slice(), "?\u{1f600}?".as_bytes()));
}

/// The place of the first byte that is not UTF-8, if there is one.
fn fault_place(read: &Result<JText, TextFault>) -> Option<usize> {
    match read {
        Err(TextFault::NotUtf8 { at }) => Some(*at),
        _ => None,
    }
}

/// Bytes with the place of the first that is not UTF-8.
const NOT_UTF8: [(&[u8], usize); 4] = [
    (b"\xff", 0),
    (b"ab\xc3", 2),
    (b"a\xc3\xa9\xed\xa0\x80", 3),
    (b"\xf0\x9f\x98\x80\x80", 4),
];

#[test]
fn bytes_that_are_not_utf8_have_their_place(rt: HostRuntime) {
    for (bytes, wanted) in NOT_UTF8.iter() {
        let read = from_utf8(rt.alloc(), bytes);
        assert!(&rt; fault_place(&read) == Some(*wanted));
    }
}

/// What the body of a literal means.
#[derive(Clone, Copy)]
enum Meant {
    /// These units.
    Units(&'static [u16]),
    /// Nothing, since the backslash at this place begins no escape.
    BadEscape(usize),
}

/// Whether a text's meaning is this.
fn is_meant(found: &Result<JText, EscapeFault>, wanted: Meant) -> bool {
    match found {
        Ok(units) => matches!(wanted, Meant::Units(of) if units.as_slice() == of),
        Err(EscapeFault::BadEscape { at }) => {
            matches!(wanted, Meant::BadEscape(place) if *at == place)
        }
        Err(EscapeFault::NoMemory) => false,
    }
}

/// Whether the body of a literal means this.
fn means(alloc: Global, text: &str, wanted: Meant) -> bool {
    let Ok(units) = from_utf8(alloc, text.as_bytes()) else {
        return false;
    };
    let found = unescape(alloc, units.as_slice());
    is_meant(&found, wanted)
}

/// Bodies of literals with what they mean.
const BODIES: [(&str, Meant); 14] = [
    ("a\\n\\\"\\'\\\\", Meant::Units(&[97, 10, 34, 39, 92])),
    (
        "\\0\\77\\377\\400\\189",
        Meant::Units(&[0, 63, 255, 32, 48, 1, 56, 57]),
    ),
    ("\\u0041\\uD83d", Meant::Units(&[65, 0xD83D])),
    ("\\b\\t\\f\\r", Meant::Units(&[8, 9, 12, 13])),
    ("", Meant::Units(&[])),
    ("\u{1f600}", Meant::Units(&[0xD83D, 0xDE00])),
    ("\\q", Meant::BadEscape(0)),
    ("ab\\", Meant::BadEscape(2)),
    ("\\n\\8", Meant::BadEscape(2)),
    ("\\u004", Meant::BadEscape(0)),
    ("\\uu0041", Meant::BadEscape(0)),
    ("\\u000a", Meant::BadEscape(0)),
    ("\\u005C", Meant::BadEscape(0)),
    ("\\u0022", Meant::BadEscape(0)),
];

#[test]
fn literals_stand_for_their_units_or_are_bad_at_a_place(rt: HostRuntime) -> Result<(), Fail> {
    for (text, wanted) in BODIES.iter() {
        if !means(rt.alloc(), text, *wanted) {
            return Err((*text).into());
        }
    }
    Ok(())
}

/// Whether a number is written so.
fn is_decimal(alloc: Global, number: i64, wanted: &str) -> bool {
    match decimal(alloc, number) {
        Ok(text) => is_written_so(alloc, text.as_slice(), wanted.as_bytes()),
        Err(_) => false,
    }
}

/// Numbers as they are written.
const WRITTEN: [(i64, &str); 3] = [(0, "0"), (-1, "-1"), (i64::MIN, "-9223372036854775808")];

#[test]
fn numbers_are_written(rt: HostRuntime) -> Result<(), Fail> {
    for (number, wanted) in WRITTEN.iter() {
        if !is_decimal(rt.alloc(), *number, wanted) {
            return Err((*wanted).into());
        }
    }
    Ok(())
}

/// Whether a text is read as this number, or as none.
fn is_read_so(alloc: Global, text: &str, wanted: Option<i32>) -> bool {
    match from_utf8(alloc, text.as_bytes()) {
        Ok(units) => parse_int(units.as_slice()) == wanted,
        Err(_) => false,
    }
}

/// Texts with the numbers that they are read as.
const READ: [(&str, Option<i32>); 12] = [
    ("0", Some(0)),
    ("+7", Some(7)),
    ("-2147483648", Some(i32::MIN)),
    ("2147483647", Some(i32::MAX)),
    ("2147483648", None),
    ("-2147483649", None),
    ("00000000000000000000012", Some(12)),
    ("", None),
    ("-", None),
    ("+-1", None),
    ("1 ", None),
    ("99999999999999999999", None),
];

#[test]
fn numbers_are_read(rt: HostRuntime) -> Result<(), Fail> {
    for (text, wanted) in READ.iter() {
        if !is_read_so(rt.alloc(), text, *wanted) {
            return Err((*text).into());
        }
    }
    Ok(())
}
