ghost use Rattle.std.specs.Prelude.{◌≡◌, ◌<◌, ◌≤◌, ◌+◌, ◌-◌, ◌^◌, ◌++◌, ◌==◌, ℕ, List, Bool, length, take, drop, slice_index, IfSome, IfNone};
ghost use Rattle.bj_command.specs.Items.{items, line_then, last_line, without_cr, lines_begun, begins_line};

/// Where the first line ends that is whole, in bytes of which the first `scanned` are known to hold no LF.
pub fn line_end(bytes: &[u8], scanned: usize) -> Option<usize>
    requires within { scanned ≤ length bytes.now }
    requires none { (k : ℕ) → k < scanned → slice_index bytes.now k ≡ 10 → ⊥ }
    ensures within { IfSome result (λ n. n < length bytes.now) }
    ensures line { IfSome result (λ n. (more : List ℕ) (ended : Bool) →
        items (bytes.now ++ more) ended ≡ line_then (without_cr (take n bytes.now)) (items (drop (n + 1) bytes.now ++ more) ended)) }
    ensures all { IfNone result ((k : ℕ) → k < length bytes.now → slice_index bytes.now k ≡ 10 → ⊥) }
    ensures last { IfNone result (items bytes.now Bool.true ≡ last_line bytes.now Bool.true) }
{
    for i in scanned..bytes.len() {
        if bytes[i] == b'\n' {
            return Some(i);
        }
    }
    None
}

/// The line without one carriage return at its end.
pub fn drop_cr(line: &[u8]) -> &[u8]
    ensures { result.now ≡ without_cr line.now }
{
    let len = line.len();
    if len > 0 && line[len - 1] == b'\r' {
        &line[..len - 1]
    } else {
        line
    }
}

/// How many lines have begun in bytes that were got piece by piece.
#[derive(Clone, Copy, Debug, PartialEq, Eq)]
pub struct Lines {
    /// So many have a byte.
    pub begun: u64,
    /// The next byte begins one.
    pub first: bool,
}

/// The lines after one more piece.
pub fn count_lines(lines: Lines, piece: &[u8]) -> Lines
    requires { lines.begun + length piece.now < 2 ^ 64 }
    ensures begun { result.begun ≡ lines.begun + lines_begun lines.first piece.now }
    ensures first { result.first ≡ begins_line lines.first piece.now }
    ensures bound { result.begun ≤ lines.begun + length piece.now }
{
    let mut begun = lines.begun;
    let mut first = lines.first;
    for byte in piece {
        if first {
            begun += 1;
        }
        first = *byte == b'\n';
    }
    Lines { begun, first }
}
