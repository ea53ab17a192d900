// Nodes, and transmissions between them.

// A node by its number, counted from 0.
#[derive(Clone, Copy, Debug, PartialEq, Eq, PartialOrd, Ord)]
pub struct Node(pub u8);

impl Node {
    // A network has 1 to this many nodes.
    pub const MOST: usize = 64;
    // A node's row in a book: a bit for each node that it may disturb.
    pub const ROW_BYTES: usize = 8;
}

// A packet sent from one node to another.
#[derive(Clone, Copy, Debug, PartialEq, Eq)]
pub struct Transmission {
    pub sender: Node,
    pub receiver: Node,
}
