/// A wait that is open: no line is answered until it ends.
#[derive(Clone, Copy, Debug, PartialEq, Eq)]
pub enum Wait {
    /// One of which nothing is written.
    Silent,
    /// That of a line `wait`, of whose end an event tells.
    Told,
}
