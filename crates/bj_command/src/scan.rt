ghost use Rattle.std.specs.Prelude.{◌≡◌, ◌≤◌, length, not};
ghost use Rattle.std.specs.List.{position_or_len};
ghost use Rattle.bj_command.specs.Words.{next_word, word_end, is_space, utf8_fault};

/// How many spaces there are in front.
fn count_spaces(bytes: &[u8]) -> usize
    ensures count { result ≡ position_or_len (λ byte. not (is_space byte)) bytes.now }
    ensures within { result ≤ length bytes.now }
{
    for (i, byte) in bytes.iter().enumerate() {
        if *byte != b' ' {
            return i;
        }
    }
    bytes.len()
}

/// How many bytes there are in front of the first space.
fn count_others(bytes: &[u8]) -> usize
    ensures count { result ≡ position_or_len is_space bytes.now }
    ensures within { result ≤ length bytes.now }
{
    for (i, byte) in bytes.iter().enumerate() {
        if *byte == b' ' {
            return i;
        }
    }
    bytes.len()
}

/// Where the word behind a place begins, or the end of the line.
pub fn next_word(line: &[u8], place: usize) -> usize
    requires { place ≤ length line.now }
    ensures next { result ≡ next_word line.now place }
    ensures within { result ≤ length line.now }
    ensures behind { place ≤ result }
{
    place + count_spaces(&line[place..])
}

/// Where the word ends that begins at a place.
pub fn word_end(line: &[u8], place: usize) -> usize
    requires { place ≤ length line.now }
    ensures end { result ≡ word_end line.now place }
    ensures behind { place ≤ result }
    ensures within { result ≤ length line.now }
{
    place + count_others(&line[place..])
}

/// The place, from 1, of the first byte that is no UTF-8.
pub fn utf8_fault(line: &[u8]) -> Option<usize>
    ensures fault { result ≡ utf8_fault line.now }
{
    match std::str::from_utf8(line) {
        Ok(_) => None,
        Err(fault) => Some(fault.valid_up_to() + 1),
    }
}
