// The parts of a book, found from its end, and codes 1 to 8 on a lent slice. Nothing is copied.
ghost use Rattle.std.specs.Prelude.{◌≡◌, ◌≤◌, length, ◌||◌, IfOk};
ghost use Rattle.trade.specs.Limits.{trailer_bytes, most_nodes, most_flows};
ghost use Rattle.trade.specs.Layout.{sections_of};
ghost use Rattle.trade.specs.Answers.{first_of, no_number};
ghost use Rattle.trade.specs.Codes.{outside};
ghost use Rattle.trade.specs.Calls.{read_answer};
ghost use Rattle.trade.specs.Refusals.{tested};
ghost use Rattle.sections.specs.Parts.{sections_held};
ghost use Rattle.book.specs.Frame.{trailer_in, astray, trailer_answer, frame_by, frame_of, frame_held, Lies, section_rules};

use numbers::numbers::word_at;
use sections::parts::Parts;
use sections::records::{records_answer, steps_before};
use sections::rows::rows_answer;
use sections::steps::steps_answer;
use trade::{Book, Flow, Node, Plan, Refusal};

// What a trailer says: the distances to the three sections, the counts, and whether the mark is there.
#[derive(Clone, Copy)]
pub struct Trailer {
    pub rows: u16,
    pub records: u16,
    pub steps: u16,
    pub nodes: u8,
    pub flows: u8,
    pub marked: bool,
}

// The counts of a book, where its sections start in the slice, and where the steps end.
#[derive(Clone, Copy)]
pub struct Frame {
    pub nodes: usize,
    pub flows: usize,
    pub rows: usize,
    pub records: usize,
    pub steps: usize,
    pub end: usize,
}

// The trailer that the last ten bytes of a slice are.
fn trailer_of(tail: &[u8]) -> Trailer
    requires { trailer_bytes ≤ length tail.now }
    ensures { result ≡ trailer_in tail.now }
{
    let mark = Book::MARK;
    Trailer {
        rows: word_at(tail, 0),
        records: word_at(tail, 2),
        steps: word_at(tail, 4),
        nodes: tail[6],
        flows: tail[7],
        marked: (tail[8] == mark[0]) & (tail[9] == mark[1]),
    }
}

// Whether the distances disagree with the counts, or reach past the slice.
fn is_astray(t: Trailer, len: usize) -> bool
    ensures { result ≡ astray t len }
{
    let rows = t.rows as usize;
    let records = t.records as usize;
    let steps = t.steps as usize;
    (rows != records + Node::ROW_BYTES * (t.nodes as usize))
        | (records != steps + Flow::RECORD_BYTES * (t.flows as usize))
        | (steps < Book::TRAILER_BYTES)
        | (steps % 2 == 1)
        | (len < rows)
}

// Whether the counts are outside their ranges.
pub fn is_miscounted(nodes: usize, flows: usize) -> bool
    ensures { result ≡ (outside 1 most_nodes nodes || outside 0 most_flows flows) }
{
    (nodes < 1) | (Node::MOST < nodes) | (Flow::MOST < flows)
}

// Codes 2 to 4 on what a trailer says.
fn trailer_answer(t: Trailer, len: usize) -> Result<(), Refusal>
    ensures { tested result ≡ trailer_answer t len }
{
    let marked = t.marked;
    if !marked {
        return Err(Refusal::Unmarked);
    }
    if is_miscounted(t.nodes as usize, t.flows as usize) {
        return Err(Refusal::Miscounted);
    }
    if is_astray(t, len) {
        return Err(Refusal::Astray);
    }
    Ok(())
}

// Where the parts lie whose distances a trailer gives.
fn frame_by(t: Trailer, len: usize) -> Frame
    requires { (trailer_bytes ≤ len) × (t.rows ≤ len) × (t.records ≤ len) × (t.steps ≤ len) }
    ensures { result ≡ frame_by t len }
{
    Frame {
        nodes: t.nodes as usize,
        flows: t.flows as usize,
        rows: len - t.rows as usize,
        records: len - t.records as usize,
        steps: len - t.steps as usize,
        end: len - Book::TRAILER_BYTES,
    }
}

// The three sections of a book, each a part that starts inside its slice. One function of two places would promise bytes, and not which
// section they are.
pub fn rows_of(slice: &[u8], f: Frame) -> &[u8]
    requires { Lies slice.now f }
    ensures { result.now ≡ (sections_of slice.now).rows }
{
    let from = f.rows;
    let to = f.records;
    &slice[from..to]
}

pub fn records_of(slice: &[u8], f: Frame) -> &[u8]
    requires { Lies slice.now f }
    ensures { result.now ≡ (sections_of slice.now).records }
{
    let from = f.records;
    let to = f.steps;
    &slice[from..to]
}

pub fn steps_of(slice: &[u8], f: Frame) -> &[u8]
    requires { Lies slice.now f }
    ensures { result.now ≡ (sections_of slice.now).steps }
{
    let from = f.steps;
    let to = f.end;
    &slice[from..to]
}

// Codes 5 to 8 on the sections of a book, and its parts where they pass.
fn sections_answer(slice: &[u8], f: Frame) -> Result<Parts<'_>, Refusal>
    requires { Lies slice.now f }
    ensures answer { tested result ≡ first_of section_rules no_number slice.now }
    ensures parts { IfOk result (λ p. sections_held p ≡ sections_of slice.now) }
{
    let rows = rows_of(slice, f);
    let records = records_of(slice, f);
    let steps = steps_of(slice, f);
    rows_answer(f.nodes, rows)?;
    records_answer(f.flows, records)?;
    let used = Plan::STEP_BYTES * steps_before(records, f.flows);
    let room = steps.len();
    if used != room {
        return Err(Refusal::Uneven);
    }
    steps_answer(f.nodes, f.flows, records, steps)?;
    Ok(Parts {
        nodes: f.nodes,
        flows: f.flows,
        rows,
        records,
        steps,
    })
}

// Codes 1 to 8 of a slice, each at its first place, in their order; and the parts of one that passes, which lie where its trailer says.
pub fn open_book(slice: &[u8]) -> Result<Parts<'_>, Refusal>
    ensures answer { tested result ≡ read_answer slice.now }
    ensures parts { IfOk result (λ p. sections_held p ≡ sections_of slice.now) }
    ensures frame { IfOk result (λ p. frame_held p (length slice.now) ≡ frame_of slice.now) }
{
    if slice.len() < Book::TRAILER_BYTES {
        return Err(Refusal::Short);
    }
    let end = slice.len() - Book::TRAILER_BYTES;
    let t = trailer_of(&slice[end..]);
    trailer_answer(t, slice.len())?;
    sections_answer(slice, frame_by(t, slice.len()))
}

// Where the sections of a slice that is a book begin, and where the steps end. The frame borrows nothing: who has it may write at its places.
pub fn frame_of(slice: &[u8]) -> Frame
    requires { (read_answer slice.now).code ≡ 0 }
    ensures { Lies slice.now result }
{
    let end = slice.len() - Book::TRAILER_BYTES;
    let said = trailer_of(&slice[end..]);
    frame_by(said, slice.len())
}
