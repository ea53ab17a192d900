// Sets of nodes as numbers of 64 bits: node x is in the set if bit x is set.
ghost use Rattle.std.specs.Prelude.{◌≡◌, ◌+◌, ◌*◌, ◌≤◌, ◌<◌, length};
ghost use Rattle.trade.specs.Limits.{most_nodes, row_bytes};
ghost use Rattle.trade.specs.Bytes.{bit};
ghost use Rattle.nodes.specs.Network.{InNetwork};
ghost use Rattle.std.specs.Iterator.{at_most};
ghost use Rattle.nodes.specs.Mask.{only, row_mask, TakesLowest};

use trade::Node;

// The set of one node.
pub fn only(x: Node) -> u64
    requires { x.0 < most_nodes }
    ensures { result ≡ only x.0 }
{
    1 << x.0
}

// Whether a node is in a set.
pub(crate) fn has(set: u64, x: Node) -> bool
    requires { x.0 < most_nodes }
    ensures { result ≡ bit set x.0 }
{
    (set >> x.0) % 2 == 1
}

// The nodes that the node of this number disturbs: its row.
pub fn row_at(rows: &[u8], x: usize) -> u64
    requires { row_bytes * x + row_bytes ≤ length rows.now }
    ensures { result ≡ row_mask rows.now x }
{
    let (rows, _) = rows.as_chunks::<{ Node::ROW_BYTES }>();
    u64::from_le_bytes(rows[x])
}

// The nodes that a node disturbs.
pub fn row_mask(rows: &[u8], x: Node) -> u64
    requires { InNetwork rows.now x }
    ensures { result ≡ row_mask rows.now x.0 }
{
    row_at(rows, x.0 as usize)
}

// The nodes of a set, the lowest first.
#[derive(Drop)]
pub struct Members(pub u64);

impl Iterator for Members {
    type Item = Node;

    ghost next_gives = { TakesLowest };

    ghost remaining = { λ s. at_most s.0 };

    fn next(&mut self) -> Option<Node> {
        if self.0 == 0 {
            return None;
        }
        let x = self.0.trailing_zeros() as u8;
        self.0 &= self.0 - 1;
        Some(Node(x))
    }
}
