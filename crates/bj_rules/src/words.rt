ghost use Rattle.std.specs.Prelude.{◌≡◌, true, false, map};
ghost use Rattle.std.specs.Str.{bytes_eq};
ghost use Rattle.bj_rules.specs.Words as spec;

/// Whether units are those of a word.
pub fn is_word(units: &[u16], word: &str) -> bool
    ensures { result ≡ bytes_eq units.now word.now }
{
    let bytes = word.as_bytes();
    if units.len() != bytes.len() {
        return false;
    }
    for (index, unit) in units.iter().enumerate() {
        if *unit != u16::from(bytes[index]) {
            return false;
        }
    }
    true
}

/// Whether units are those of one of some words.
pub fn is_one_of(units: &[u16], words: &[&str]) -> bool
    ensures { result ≡ spec.is_one_of (map (λ word. word.now) words.now) units.now }
{
    for word in words {
        if is_word(units, word) {
            return true;
        }
    }
    false
}

/// Whether two names are the same.
pub fn is_text(units: &[u16], others: &[u16]) -> bool
    ensures { result ≡ bytes_eq units.now others.now }
{
    units == others
}
