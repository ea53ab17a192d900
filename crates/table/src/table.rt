// The table in memory: the same counts and sections as a book, in the same layout, with room for the largest, and the interference of its
// flows, I(l,h) at 32 l + h; and reading. There is no heap: each section is an array of the largest size, and the counts stand beside.
ghost use Rattle.std.specs.Prelude.{◌≡◌, ◌≤◌, length, IfOk};
ghost use Rattle.trade.specs.Layout.{sections};
ghost use Rattle.trade.specs.Answers.{first_of, no_number};
ghost use Rattle.trade.specs.Table.{InMemory, rows_room, records_room, steps_room};
ghost use Rattle.trade.specs.Kept.{empty_kept};
ghost use Rattle.trade.specs.Calls.{table_rules};
ghost use Rattle.trade.specs.Refusals.{tested};
ghost use Rattle.sections.specs.Formed.{Formed};
ghost use Rattle.sections.specs.Parts.{sections_held};
ghost use Rattle.table.specs.Table.{sections_in, kept_in, table_with, Reads};

use book::parts::{is_miscounted, open_book};
use sections::parts::Parts;
use sections::records::records_answer;
use sections::rows::rows_answer;
use sections::steps::steps_answer;
use square::kept::{Figures, keep};
use trade::{Answer, Flow, Node, Plan, Refusal};

#[derive(Clone, Copy)]
pub struct Table {
    pub nodes: u8,
    pub flows: u8,
    pub rows: [u8; Node::MOST * Node::ROW_BYTES],
    pub records: [u8; Flow::MOST * Flow::RECORD_BYTES],
    pub steps: [u8; Flow::MOST * Plan::MOST * Plan::STEP_BYTES],
    pub figures: Figures,
}

// What reading a book answers, and the table that it holds. Not a Result, since `Reads` promises a table of zeros on a refusal.
#[derive(Clone, Copy)]
pub struct Got {
    pub answer: Answer,
    pub table: Table,
}

impl Table {
    // A table of no nodes and no flows: zeros.
    pub fn empty() -> Self
        ensures { kept_in result ≡ empty_kept }
    {
        Table {
            nodes: 0,
            flows: 0,
            rows: [0; Node::MOST * Node::ROW_BYTES],
            records: [0; Flow::MOST * Flow::RECORD_BYTES],
            steps: [0; Flow::MOST * Plan::MOST * Plan::STEP_BYTES],
            figures: [0; Flow::MOST * Flow::MOST],
        }
    }

    // Codes 3, 5, 6 and 8 on the table, and its parts where they pass.
    pub fn parts(&self) -> Result<Parts<'_>, Refusal>
        ensures answer { tested result ≡ first_of table_rules no_number (sections_in self.now) }
        ensures parts { IfOk result (λ p. sections_held p ≡ sections_in self.now) }
    {
        table_answer(
            self.nodes as usize,
            self.flows as usize,
            &self.rows,
            &self.records,
            &self.steps,
        )
    }
}

// The table of these sections, zeros behind each, and the figures of their flows. The sections come apart and not as `Parts`: the counts are
// bytes here, which `Parts` does not say.
pub fn table_of<'a>(
    nodes: u8,
    flows: u8,
    rows: &'a [u8],
    records: &'a [u8],
    steps: &'a [u8],
) -> Table
    requires rows_len_bound { (length rows.now ≤ rows_room) × (length records.now ≤ records_room) × (length steps.now ≤ steps_room) }
    requires formed { Formed flows rows.now records.now steps.now }
    ensures { kept_in result ≡ table_with nodes flows rows.now records.now steps.now }
{
    let mut r = [0u8; Node::MOST * Node::ROW_BYTES];
    let mut c = [0u8; Flow::MOST * Flow::RECORD_BYTES];
    let mut s = [0u8; Flow::MOST * Plan::MOST * Plan::STEP_BYTES];
    let mut i = [0u8; Flow::MOST * Flow::MOST];
    r[..rows.len()].copy_from_slice(rows);
    c[..records.len()].copy_from_slice(records);
    s[..steps.len()].copy_from_slice(steps);
    let parts = Parts {
        nodes: nodes as usize,
        flows: flows as usize,
        rows,
        records,
        steps,
    };
    keep(parts, &mut i);
    Table {
        nodes,
        flows,
        rows: r,
        records: c,
        steps: s,
        figures: i,
    }
}

// Codes 3, 5, 6 and 8 on a table's sections, and its parts where they pass. It takes slices, as docs/PROMISES.md lists it: a `Table` would ask
// for whole arrays, and `Parts` have passed already.
pub fn table_answer<'a>(
    nodes: usize,
    flows: usize,
    rows: &'a [u8],
    records: &'a [u8],
    steps: &'a [u8],
) -> Result<Parts<'a>, Refusal>
    requires { InMemory (sections nodes flows rows.now records.now steps.now) }
    ensures answer { tested result ≡ first_of table_rules no_number (sections nodes flows rows.now records.now steps.now) }
    ensures parts { IfOk result (λ p. sections_held p ≡ sections nodes flows rows.now records.now steps.now) }
{
    if is_miscounted(nodes, flows) {
        return Err(Refusal::Miscounted);
    }
    rows_answer(nodes, rows)?;
    records_answer(flows, records)?;
    steps_answer(nodes, flows, records, steps)?;
    Ok(Parts {
        nodes,
        flows,
        rows,
        records,
        steps,
    })
}

// READ: codes 1 to 8; the table with its unused places zero and its figures right, or a table of zeros with the refusal.
pub fn read(book: &[u8]) -> Got
    ensures { Reads book.now result }
{
    let parts = match open_book(book) {
        Ok(parts) => parts,
        Err(refusal) => {
            return Got {
                answer: refusal.answer(),
                table: Table::empty(),
            };
        }
    };
    let table = table_of(
        parts.nodes as u8,
        parts.flows as u8,
        parts.rows,
        parts.records,
        parts.steps,
    );
    Got {
        answer: Answer::done(0),
        table,
    }
}
