ghost use Rattle.std.specs.Prelude.{◌≡◌, List};
ghost use Rattle.bj_token.specs.declared.token.Token.{Token};
ghost use Rattle.bj_tree.specs.declared.line.LineTree.{LineTree};
ghost use Rattle.bj_line.specs.Line.{IsLine};

/// The grammar is unambiguous: tokens that are a line are one tree.
pub fn lines_have_one_tree()
    ensures { (tokens : List Token) (a b : LineTree) → IsLine tokens a → IsLine tokens b → a ≡ b }
{}
