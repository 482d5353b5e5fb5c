ghost use Rattle.std.specs.Prelude.{◌≡◌, ◌+◌, ◌<◌, ◌≤◌, length};
ghost use Rattle.bj_lex.specs.Places.{start, new_line, next_place, place_after, span_of};

use bj_base::Span;

const LINE_FEED: u16 = 10;

const RETURN: u16 = 13;

/// A place between two units of a text.
#[derive(Clone, Copy)]
pub struct Place {
    /// The line, from 1.
    pub line: u32,
    /// The column, from 1, in UTF-16 units.
    pub column: u32,
    /// Whether the unit before is a return, with which a line feed makes one line end.
    pub after_return: bool,
}

impl Place {
    /// Where a text begins.
    pub fn start() -> Place
        ensures { result ≡ start }
    {
        Place {
            line: 1,
            column: 1,
            after_return: false,
        }
    }

    /// The line and the column.
    pub fn span(&self) -> Span
        ensures { result ≡ span_of self.now }
    {
        Span {
            line: self.line,
            column: self.column,
        }
    }

    /// The place behind units. A line ends at LF, CR or CR LF [JLS 3.4].
    pub fn past(self, units: &[u16]) -> Place
        requires line { self.line + length units.now < 4294967296 }
        requires column { self.column + length units.now < 4294967296 }
        requires first { 1 ≤ self.column }
        ensures value { result ≡ place_after self units.now }
        ensures line { result.line ≤ self.line + length units.now }
        ensures column { result.column ≤ self.column + length units.now }
        ensures first { 1 ≤ result.column }
    {
        let mut place = self;
        for unit in units {
            place = next_place(place, *unit);
        }
        place
    }
}

/// The place behind a unit.
#[tactic(auto, unfolding(crate::specs::Places::next_place))]
fn next_place(place: Place, unit: u16) -> Place
    requires line { place.line + 1 < 4294967296 }
    requires column { place.column + 1 < 4294967296 }
    ensures value { result ≡ next_place place unit }
    ensures line { result.line ≤ place.line + 1 }
    ensures column { 1 ≤ place.column → result.column ≤ place.column + 1 }
    ensures first { 1 ≤ place.column → 1 ≤ result.column }
{
    if unit == RETURN {
        return new_line(place, true);
    }
    if unit != LINE_FEED {
        return Place {
            line: place.line,
            column: place.column + 1,
            after_return: false,
        };
    }
    if place.after_return {
        return Place {
            line: place.line,
            column: place.column,
            after_return: false,
        };
    }
    new_line(place, false)
}

/// The first place of the next line.
fn new_line(place: Place, after_return: bool) -> Place
    requires { place.line + 1 < 4294967296 }
    ensures { result ≡ new_line place after_return }
{
    Place {
        line: place.line + 1,
        column: 1,
        after_return,
    }
}
