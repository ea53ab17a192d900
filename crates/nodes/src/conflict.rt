// Disturbance between nodes, and conflict between transmissions.
ghost use Rattle.std.specs.Prelude.{◌≡◌, ◌+◌, ◌*◌, ◌/◌, ◌<◌, length};
ghost use Rattle.trade.specs.Limits.{row_bytes};
ghost use Rattle.trade.specs.Facts.{disturbs_in};
ghost use Rattle.trade.specs.Conflict.{meet, conflict};
ghost use Rattle.nodes.specs.Network.{Within};

use trade::{Node, Transmission};

// In row x, node y is bit y mod 8 of byte y div 8, the lowest bit being 0: set means that x disturbs y.
pub fn disturbs(rows: &[u8], x: Node, y: Node) -> bool
    requires { row_bytes * x.0 + y.0 / 8 < length rows.now }
    ensures { result ≡ disturbs_in rows.now x.0 y.0 }
{
    let at = Node::ROW_BYTES * (x.0 as usize) + (y.0 as usize) / 8;
    (rows[at] >> (y.0 % 8)) % 2 == 1
}

// Four nodes are not all distinct.
fn meet(a: Node, b: Node, c: Node, d: Node) -> bool
    ensures { result ≡ meet a.0 b.0 c.0 d.0 }
{
    (a == b) | (c == d) | (a == c) | (a == d) | (b == c) | (b == d)
}

// A to B and C to D conflict if the four nodes are not all distinct, or C disturbs B, or A disturbs D; or D disturbs A, or B disturbs C.
pub fn conflict(rows: &[u8], t: Transmission, u: Transmission) -> bool
    requires { Within rows.now t × Within rows.now u }
    ensures { result ≡ conflict (disturbs_in rows.now) t u }
{
    meet(t.sender, t.receiver, u.sender, u.receiver)
        | disturbs(rows, u.sender, t.receiver)
        | disturbs(rows, t.sender, u.receiver)
        | disturbs(rows, u.receiver, t.sender)
        | disturbs(rows, t.receiver, u.sender)
}
