// Books A and B of the rules, and the largest table.
use changes::change::add;
use table::table::Table;
use trade::{Book, Flow, Node, Plan};

// Six nodes, two flows and six steps; five nodes, three flows and eleven steps.
pub const A_BYTES: usize = 6 * Node::ROW_BYTES
    + 2 * Flow::RECORD_BYTES
    + 6 * Plan::STEP_BYTES
    + Book::TRAILER_BYTES;

pub const B_BYTES: usize = 5 * Node::ROW_BYTES
    + 3 * Flow::RECORD_BYTES
    + 11 * Plan::STEP_BYTES
    + Book::TRAILER_BYTES;

// A book as long as B: A has other bytes in front.
pub type Base = [u8; B_BYTES];

// x disturbs y when they differ by 1. Flow 7 goes 0-1, 1-2, 2-3; flow 9 goes 5-4, 4-3, 3-2.
pub const A: Base = *b"\
    other bytes \
    \x02\0\0\0\0\0\0\0\
    \x05\0\0\0\0\0\0\0\
    \x0a\0\0\0\0\0\0\0\
    \x14\0\0\0\0\0\0\0\
    \x28\0\0\0\0\0\0\0\
    \x10\0\0\0\0\0\0\0\
    \0\x07\0\0\0\x0a\0\x0a\0\x03\
    \0\x09\0\0\0\x0c\0\x0c\0\x03\
    \x00\x01\x01\x02\x02\x03\
    \x05\x04\x04\x03\x03\x02\
    \0\x5a\0\x2a\0\x16\x06\x02FB";

// Neighbours disturb. Flow 1 sends 0-1 five times, flow 2 sends 1-2, flow 3 sends 3-4 five times.
pub const B: Base = *b"\
    \x02\0\0\0\0\0\0\0\
    \x05\0\0\0\0\0\0\0\
    \x0a\0\0\0\0\0\0\0\
    \x14\0\0\0\0\0\0\0\
    \x08\0\0\0\0\0\0\0\
    \0\x01\0\0\0\x14\0\x05\0\x05\
    \0\x02\0\0\0\x0a\0\x0a\0\x01\
    \0\x03\0\x05\0\x14\0\x07\0\x05\
    \x00\x01\x00\x01\x00\x01\x00\x01\x00\x01\
    \x01\x02\
    \x03\x04\x03\x04\x03\x04\x03\x04\x03\x04\
    \0\x66\0\x3e\0\x20\x05\x03FB";

// Room for the largest book in which every flow has one step.
pub const ROOM: usize = Node::MOST * Node::ROW_BYTES
    + Flow::MOST * (Flow::RECORD_BYTES + Plan::STEP_BYTES)
    + Book::TRAILER_BYTES;

// The longest plan, 0-1 over and over.
pub const PLAN: [u8; Plan::MOST * Plan::STEP_BYTES] = *b"\
    \x00\x01\x00\x01\x00\x01\x00\x01\x00\x01\x00\x01\x00\x01\x00\x01\
    \x00\x01\x00\x01\x00\x01\x00\x01\x00\x01\x00\x01\x00\x01\x00\x01\
    \x00\x01\x00\x01\x00\x01\x00\x01\x00\x01\x00\x01\x00\x01\x00\x01\
    \x00\x01\x00\x01\x00\x01\x00\x01\x00\x01\x00\x01\x00\x01\x00\x01";

// As many nodes as may be, which disturb no one, and as many flows, with ids from 1, which each send 0-1 once every 100 slots.
pub(crate) fn largest() -> Table {
    let mut table = Table::empty();
    table.nodes = Node::MOST as u8;
    for i in 0..Flow::MOST {
        let flow = Flow {
            id: (i + 1) as u16,
            phase: 0,
            period: 100,
            deadline: 100,
            len: 1,
        };
        table = add(table, i, flow, PLAN).table;
    }
    table
}
