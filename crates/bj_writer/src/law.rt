ghost use Rattle.std.specs.Prelude.{List, None};
ghost use Rattle.bj_lex.specs.Grammar.{Lexes};
ghost use Rattle.bj_writer.specs.Pieces.{Piece, tokens_of, written};
ghost use Rattle.bj_writer.specs.Tokens.{AreTokens, ReadAs};

/// A law, with nothing to run: what a writer writes of tokens has these tokens, and no others. A token is one that stands in some text.
///
/// By `derived` the lexical grammar of the JLS, chapter 3, derives them of what is written; by `read` its bytes in UTF-8 are read as them.
pub fn written_tokens_are_read()
    ensures derived { (pieces : List Piece) → AreTokens (tokens_of pieces) → Lexes (written None pieces) (tokens_of pieces) }
    ensures read { (pieces : List Piece) → AreTokens (tokens_of pieces) → ReadAs (written None pieces) (tokens_of pieces) }
{}
