// The disturbance rows of a book or a table: eight bytes for each node, and code 5.
ghost use Rattle.std.specs.Prelude.{◌≡◌, not, [], ◌*◌, ◌/◌, ◌^◌, ◌≤◌, ◌<◌, eqb, length};
ghost use Rattle.trade.specs.Limits.{row_bytes, most_nodes};
ghost use Rattle.trade.specs.Facts.{facts_in};
ghost use Rattle.trade.specs.Codes.{bad_row, code5};
ghost use Rattle.trade.specs.Refusals.{tested};

use nodes::mask::row_at;
use trade::Refusal;

// Whether a set has a node at or above n. In two shifts, each by less than the 64 bits of a set.
fn has_above(nodes: usize, set: u64) -> bool
    requires { (1 ≤ nodes) × (nodes ≤ most_nodes) }
    ensures { result ≡ not (eqb (set / 2 ^ nodes) 0) }
{
    (set >> (nodes - 1)) >> 1 != 0
}

// Whether row x has its own bit or a bit at or above n.
fn is_bad_row(nodes: usize, rows: &[u8], x: usize) -> bool
    requires { (x < nodes) × (nodes ≤ most_nodes) × (row_bytes * nodes ≤ length rows.now) }
    ensures { result ≡ bad_row (facts_in nodes 0 rows.now [] []) x }
{
    let set = row_at(rows, x);
    ((set >> x) % 2 == 1) | has_above(nodes, set)
}

// Code 5, at the first bad row.
pub fn rows_answer(nodes: usize, rows: &[u8]) -> Result<(), Refusal>
    requires { (nodes ≤ most_nodes) × (row_bytes * nodes ≤ length rows.now) }
    ensures { tested result ≡ code5 (facts_in nodes 0 rows.now [] []) }
{
    for x in 0..nodes {
        if is_bad_row(nodes, rows, x) {
            return Err(Refusal::BadRow(x));
        }
    }
    Ok(())
}
