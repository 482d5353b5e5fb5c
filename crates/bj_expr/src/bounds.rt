/// How much the reading of a part may take.
#[derive(Clone, Copy, Debug, PartialEq, Eq)]
pub struct Bounds {
    /// How many steps one loop may take; more than there are tokens is enough for each text.
    pub most: usize,
    /// How many nodes may stand on the way from the part's root to a node of it, both included.
    pub room: u16,
}
