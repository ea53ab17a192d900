// A table written as a book, at the front of a lent buffer.
ghost use Rattle.std.specs.Prelude.{◌≡◌, ◌+◌, length};
ghost use Rattle.trade.specs.Bytes.{over};
ghost use Rattle.trade.specs.Table.{book_of};
ghost use Rattle.trade.specs.Refusals.{answered};
ghost use Rattle.sections.specs.Parts.{sections_held};
ghost use Rattle.table.specs.Table.{sections_in};
ghost use Rattle.table.specs.Written.{trailer_with, Room, Writes};

use crate::table::Table;
use numbers::numbers::put_word;
use numbers::pasting::put_at;
use sections::parts::Parts;
use sections::records::steps_before;
use trade::{Book, Flow, Node, Plan, Refusal};

// The ten bytes of a trailer.
fn trailer_bytes(
    rows: u16,
    records: u16,
    steps: u16,
    nodes: u8,
    flows: u8,
) -> [u8; Book::TRAILER_BYTES]
    ensures { result ≡ trailer_with rows records steps nodes flows }
{
    let mark = Book::MARK;
    let mut trailer = [0u8; Book::TRAILER_BYTES];
    put_word(&mut trailer, 0, rows);
    put_word(&mut trailer, 2, records);
    put_word(&mut trailer, 4, steps);
    trailer[6] = nodes;
    trailer[7] = flows;
    trailer[8] = mark[0];
    trailer[9] = mark[1];
    trailer
}

// The used places of a table's sections and the trailer, one behind the other.
fn fill(parts: Parts, all: usize, buffer: &mut [u8])
    requires { Room (sections_held parts) all (length buffer.old) }
    ensures { buffer.new ≡ over (book_of (sections_held parts.entry)) buffer.old }
{
    let row_bytes = Node::ROW_BYTES * parts.nodes;
    let record_bytes = Flow::RECORD_BYTES * parts.flows;
    let step_bytes = Plan::STEP_BYTES * all;
    let steps_distance = step_bytes + Book::TRAILER_BYTES;
    let records_distance = steps_distance + record_bytes;
    let rows_distance = records_distance + row_bytes;
    let trailer = trailer_bytes(
        rows_distance as u16,
        records_distance as u16,
        steps_distance as u16,
        parts.nodes as u8,
        parts.flows as u8,
    );
    put_at(buffer, 0, &parts.rows[..row_bytes]);
    put_at(buffer, row_bytes, &parts.records[..record_bytes]);
    put_at(buffer, row_bytes + record_bytes, &parts.steps[..step_bytes]);
    put_at(buffer, row_bytes + record_bytes + step_bytes, &trailer);
}

// Codes 3, 5, 6 and 8 on a table, then 13; the book at the front of the buffer, and its length.
fn write_table(t: &Table, buffer: &mut [u8]) -> Result<usize, Refusal>
    ensures { Writes (sections_in t.now) buffer.old (answered (λ len. len) result) buffer.new }
{
    let parts = t.parts()?;
    let all = steps_before(parts.records, parts.flows);
    let len = Node::ROW_BYTES * parts.nodes
        + Flow::RECORD_BYTES * parts.flows
        + Plan::STEP_BYTES * all
        + Book::TRAILER_BYTES;
    if buffer.len() < len {
        return Err(Refusal::NoRoom);
    }
    fill(parts, all, buffer);
    Ok(len)
}

// WRITE: codes 3, 5, 6 and 8 on the table, then 13; the book at the front of the lent buffer, and nothing beyond it touched. Its length, or why
// the call is refused.
pub fn write(t: Table, buffer: &mut [u8]) -> Result<usize, Refusal>
    ensures { Writes (sections_in t) buffer.old (answered (λ len. len) result) buffer.new }
{
    write_table(&t, buffer)
}
