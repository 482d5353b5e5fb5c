ghost use Rattle.std.specs.Prelude.{◌≡◌, List, ℕ};
ghost use Rattle.bj_base.specs.declared.fault.FaultCode.{FaultCode};
ghost use Rattle.bj_lex.specs.declared.place.Place.{Place};
ghost use Rattle.bj_token.specs.declared.token.Token.{Token as Lexeme};
ghost use Rattle.bj_lex.specs.Texts.{Read as ReadAs, Stopped, read};
ghost use Rattle.bj_lex.specs.Grammar.{IsFaultAt, IsReadAs, Lexes, Spelled, spelled};

/// A law, with nothing to run: a text is read as tokens exactly where the lexical grammar of the JLS, chapter 3, derives them of it.
/// The grammar stands beside it as a relation, with a constructor for each rule.
///
/// With `tokens`, whose result is the reading of the bytes' units, it says that a text in UTF-8 has tokens exactly where the grammar
/// derives some, and that these are the ones. The grammar derives no other tokens of it.
pub fn tokens_are_derived(units: &[u16])
    ensures sound { (tokens : List Lexeme) (end : Place) → read units.now ≡ ReadAs tokens end → Lexes units.now (spelled tokens) }
    ensures complete { (tokens : List Spelled) → Lexes units.now tokens → IsReadAs units.now tokens }
    ensures unambiguous { (left right : List Spelled) → Lexes units.now left → Lexes units.now right → left ≡ right }
{
    let _units = units;
}

/// A law, with nothing to run: a text is read as a fault exactly where tokens lead to its place, and what stands there is a fault with
/// its code by one of the rules that stand beside the grammar, one for each way in which a text can be no tokens of the profile.
///
/// With `tokens`, whose refusal is the reading's fault, it says that the fault of a text in UTF-8 is the first one.
pub fn faults_are_of_a_rule(units: &[u16])
    ensures sound { (at : ℕ) (place : Place) (code : FaultCode) → read units.now ≡ Stopped at place code → IsFaultAt units.now at place code }
    ensures complete { (at : ℕ) (place : Place) (code : FaultCode) → IsFaultAt units.now at place code → read units.now ≡ Stopped at place code }
{
    let _units = units;
}
