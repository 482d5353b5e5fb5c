ghost use Rattle.std.specs.Prelude.{◌≡◌, ◌<◌, length};
ghost use Rattle.bj_lex.specs.Words.{word_element, is_word, is_keyword, is_left_out, is_first_group, is_second_group, is_third_group, is_fourth_group, is_fifth_group, is_sixth_group, is_left_out_first, is_left_out_second};
ghost use Rattle.bj_lex.specs.Elements.{IsWithin};

use crate::element::Element;
use bj_base::FaultCode;
use bj_token::TokenKind;

/// A word: a keyword, or else an identifier. The keywords that the profile leaves out are refused [JLS 3.8, 3.9].
pub fn word_element(word: &[u16]) -> Element
    requires { 0 < length word.now }
    ensures value { result ≡ word_element (length word.now) word.now }
    ensures within { IsWithin word.now result }
{
    if is_left_out(word) {
        return Element::Fault(FaultCode::Profile);
    }
    if is_keyword(word) {
        return Element::Token(TokenKind::Keyword, word.len());
    }
    Element::Token(TokenKind::Word, word.len())
}

fn is_keyword(word: &[u16]) -> bool
    ensures { result ≡ is_keyword word.now }
{
    is_first_group(word)
        || is_second_group(word)
        || is_third_group(word)
        || is_fourth_group(word)
        || is_fifth_group(word)
        || is_sixth_group(word)
}

fn is_left_out(word: &[u16]) -> bool
    ensures { result ≡ is_left_out word.now }
{
    is_left_out_first(word) || is_left_out_second(word)
}

fn is_first_group(word: &[u16]) -> bool
    ensures { result ≡ is_first_group word.now }
{
    is_word(word, b"abstract")
        || is_word(word, b"boolean")
        || is_word(word, b"break")
        || is_word(word, b"case")
        || is_word(word, b"catch")
        || is_word(word, b"char")
        || is_word(word, b"class")
}

fn is_second_group(word: &[u16]) -> bool
    ensures { result ≡ is_second_group word.now }
{
    is_word(word, b"continue")
        || is_word(word, b"default")
        || is_word(word, b"do")
        || is_word(word, b"else")
        || is_word(word, b"extends")
        || is_word(word, b"false")
        || is_word(word, b"final")
}

fn is_third_group(word: &[u16]) -> bool
    ensures { result ≡ is_third_group word.now }
{
    is_word(word, b"finally")
        || is_word(word, b"for")
        || is_word(word, b"if")
        || is_word(word, b"implements")
        || is_word(word, b"import")
        || is_word(word, b"instanceof")
        || is_word(word, b"int")
}

fn is_fourth_group(word: &[u16]) -> bool
    ensures { result ≡ is_fourth_group word.now }
{
    is_word(word, b"interface")
        || is_word(word, b"long")
        || is_word(word, b"new")
        || is_word(word, b"null")
        || is_word(word, b"private")
        || is_word(word, b"protected")
        || is_word(word, b"public")
}

fn is_fifth_group(word: &[u16]) -> bool
    ensures { result ≡ is_fifth_group word.now }
{
    is_word(word, b"return")
        || is_word(word, b"static")
        || is_word(word, b"super")
        || is_word(word, b"switch")
        || is_word(word, b"synchronized")
        || is_word(word, b"this")
        || is_word(word, b"throw")
}

fn is_sixth_group(word: &[u16]) -> bool
    ensures { result ≡ is_sixth_group word.now }
{
    is_word(word, b"throws")
        || is_word(word, b"true")
        || is_word(word, b"try")
        || is_word(word, b"void")
        || is_word(word, b"volatile")
        || is_word(word, b"while")
}

fn is_left_out_first(word: &[u16]) -> bool
    ensures { result ≡ is_left_out_first word.now }
{
    is_word(word, b"assert")
        || is_word(word, b"byte")
        || is_word(word, b"const")
        || is_word(word, b"double")
        || is_word(word, b"enum")
        || is_word(word, b"float")
}

fn is_left_out_second(word: &[u16]) -> bool
    ensures { result ≡ is_left_out_second word.now }
{
    is_word(word, b"goto")
        || is_word(word, b"native")
        || is_word(word, b"package")
        || is_word(word, b"short")
        || is_word(word, b"strictfp")
        || is_word(word, b"transient")
}

/// Whether the units are those of an ASCII word.
fn is_word(units: &[u16], word: &[u8]) -> bool
    ensures { result ≡ is_word word.now units.now }
{
    if units.len() != word.len() {
        return false;
    }
    for at in 0..units.len() {
        if units[at] != u16::from(word[at]) {
            return false;
        }
    }
    true
}
