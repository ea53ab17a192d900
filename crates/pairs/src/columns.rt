// The columns of a plan, gathered once: for each node, the steps of the plan that conflict with what the node sends or receives, as bits.
// With them the steps that any transmission conflicts with are read at once.
ghost use Rattle.std.specs.Prelude.{◌≡◌, true, ◌&&◌, ℕ, ◌+◌, ◌*◌, ◌≤◌, ◌<◌, ltb, length, get_or};
ghost use Rattle.trade.specs.Limits.{most_nodes, most_steps, step_bytes};
ghost use Rattle.trade.specs.First.{some};
ghost use Rattle.trade.specs.Bytes.{bit};
ghost use Rattle.trade.specs.Facts.{step_in};
ghost use Rattle.nodes.specs.Network.{Within};
ghost use Rattle.plans.specs.Plan.{AllWithin};
ghost use Rattle.pairs.specs.Columns.{Spread, nodes_in, ending, Heard, Noted, Gathered, marked_at};

use nodes::mask::{Members, only, row_mask};
use plans::steps::{step_at, step_count};
use trade::{Node, Plan, Transmission};

// A mark set at every node of a set.
fn spread(table: &mut [u64], nodes: u64, mark: u64)
    requires { most_nodes ≤ length table.old }
    ensures { Spread nodes mark table.old table.new }
{
    for x in Members(nodes) {
        table[x.0 as usize] |= mark;
    }
}

// The nodes that send or receive one of the first so many steps.
pub fn nodes_in(steps: &[u8], count: usize) -> u64
    requires { (step_bytes * count ≤ length steps.now) × ((j : ℕ) → j < count → ((step_in steps.now j).sender.0 < most_nodes) × ((step_in steps.now j).receiver.0 < most_nodes)) }
    ensures { (x : ℕ) → bit result x ≡ some (λ j. ending (step_in steps.now j) x) count }
{
    let mut nodes: u64 = 0;
    for j in 0..count {
        let u = step_at(steps, j);
        nodes |= only(u.sender) | only(u.receiver);
    }
    nodes
}

// For each node, those of a set that disturb it, put into a blank table.
pub fn hear(rows: &[u8], nodes: u64, table: &mut [u64])
    requires { ((x : ℕ) → bit nodes x ≡ true → x < nodes_in rows.now) × (most_nodes ≤ length table.old) × ((y : ℕ) → y < most_nodes → get_or table.old y 0 ≡ 0) }
    ensures { Heard rows.now nodes table.old table.new }
{
    for x in Members(nodes) {
        spread(table, row_mask(rows, x), only(x));
    }
}

// One step of a plan noted, the b-th from the end: with its own two nodes, whom its sender disturbs or hears, and whom its receiver does. Most
// are both, and get both marks at once.
fn note(rows: &[u8], heard: &[u64], u: Transmission, b: usize, columns: &mut [u64])
    requires { Within rows.now u × (b < most_steps) × (most_nodes ≤ length heard.now) × (most_nodes ≤ length columns.old) }
    ensures { Noted rows.now heard.now u b columns.old columns.new }
{
    let ends = only(u.sender) | only(u.receiver);
    let receiving = row_mask(rows, u.sender) | heard[u.sender.0 as usize] | ends;
    let sending = row_mask(rows, u.receiver) | heard[u.receiver.0 as usize] | ends;
    let both = receiving & sending;
    let lower = 1 << b;
    let upper = 1 << (Plan::MOST + b);
    spread(columns, both, lower | upper);
    spread(columns, receiving ^ both, lower);
    spread(columns, sending ^ both, upper);
}

// The columns of a plan, gathered into blank ones.
pub fn gather(rows: &[u8], heard: &[u64], plan: &[u8], columns: &mut [u64])
    requires { (length plan.now ≤ step_bytes * most_steps) × AllWithin rows.now plan.now × (most_nodes ≤ length heard.now) × (most_nodes ≤ length columns.old) × ((x : ℕ) → x < most_nodes → get_or columns.old x 0 ≡ 0) }
    ensures { Gathered rows.now heard.now plan.now columns.old columns.new }
{
    let len = step_count(plan);
    for b in 0..len {
        note(rows, heard, step_at(plan, len - 1 - b), b, columns);
    }
}

// The steps that a transmission conflicts with, by the columns.
pub fn marks_of(columns: &[u64], t: Transmission) -> u32
    requires { (t.sender.0 < length columns.now) × (t.receiver.0 < length columns.now) }
    ensures { (b : ℕ) → bit result b ≡ (ltb b most_steps && marked_at columns.now t b) }
{
    let sent = columns[t.sender.0 as usize];
    let received = columns[t.receiver.0 as usize];
    ((sent >> Plan::MOST) as u32) | ((received % (1 << Plan::MOST)) as u32)
}
