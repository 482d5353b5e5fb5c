/// How many nodes may stand on the way from the root of a line, a body or an initializer to a node of it, both included.
pub const MOST_NODES: u16 = 201;
