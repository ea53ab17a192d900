// The rules of a change: on the old table, on where a flow comes in or which goes, and on the new table.
ghost use Rattle.std.specs.Prelude.{◌≡◌, [], ◌∷◌, ◌*◌, ◌≤◌, length, take};
ghost use Rattle.trade.specs.Limits.{row_bytes, record_bytes};
ghost use Rattle.trade.specs.Layout.{sections};
ghost use Rattle.trade.specs.Facts.{facts_in};
ghost use Rattle.trade.specs.Answers.{first_of, no_number};
ghost use Rattle.trade.specs.Codes.{code14, code15_adding, code15_removing};
ghost use Rattle.trade.specs.Kept.{tabled, KeptInMemory};
ghost use Rattle.trade.specs.Calls.{old_rules};
ghost use Rattle.trade.specs.Refusals.{tested};
ghost use Rattle.rules.specs.Rules.{New, Carried, NewFigures};

use bounds::kept::bounds_with;
use sections::parts::Parts;
use sections::records::records_answer;
use sections::steps::steps_answer;
use square::carried::{figures_in, pairs_at};
use square::kept::kept_answer;
use table::table::table_answer;
use trade::{Flow, Node, Refusal};

// Codes 3, 5, 6, 8 and 17 on the old table. It takes slices, as docs/PROMISES.md lists it: a `Table` would ask for whole arrays.
pub fn old_answer<'a>(
    nodes: usize,
    flows: usize,
    rows: &'a [u8],
    records: &'a [u8],
    steps: &'a [u8],
    figures: &'a [u8],
) -> Result<(), Refusal>
    requires { KeptInMemory (tabled nodes flows rows.now records.now steps.now figures.now) }
    ensures { tested result ≡ first_of old_rules no_number (tabled nodes flows rows.now records.now steps.now figures.now) }
{
    let parts = table_answer(nodes, flows, rows, records, steps)?;
    kept_answer(parts, figures)
}

// Codes 14 and 15 on where a flow comes in: the table is full, or the place is past the one behind its last flow.
pub fn enter_answer(flows: usize, place: usize) -> Result<(), Refusal>
    ensures { tested result ≡ first_of (code14 ∷ (λ f. code15_adding f place) ∷ []) no_number (facts_in 0 flows [] [] []) }
{
    if flows == Flow::MOST {
        return Err(Refusal::Full);
    }
    if flows < place {
        return Err(Refusal::NoPlace);
    }
    Ok(())
}

// Code 15 on which flow goes: the place has none.
pub fn leave_answer(flows: usize, place: usize) -> Result<(), Refusal>
    ensures { tested result ≡ code15_removing (facts_in 0 flows [] [] []) place }
{
    if flows <= place {
        return Err(Refusal::NoPlace);
    }
    Ok(())
}

// Codes 6, 8 and 9 on the new table, every flow tested, where a flow has come in at a place. Code 9 goes by the newcomer's pairs and the figures of
// before; once it has passed, the figures are those of the new table. Refused, they are as they were. The sections are `Parts` only once
// they have passed.
fn new_answer<'a>(
    nodes: usize,
    flows: usize,
    rows: &'a [u8],
    records: &'a [u8],
    steps: &'a [u8],
    place: usize,
    figures: &mut [u8],
) -> Result<(), Refusal>
    requires new { New (sections nodes flows rows.now records.now steps.now) }
    requires carried { Carried (sections nodes flows rows.now records.now steps.now) place figures.old }
    ensures { NewFigures (sections nodes flows rows.now records.now steps.now) figures.old (tested result) figures.new }
{
    records_answer(flows, records)?;
    steps_answer(nodes, flows, records, steps)?;
    let parts = Parts {
        nodes,
        flows,
        rows,
        records,
        steps,
    };
    let pairs = pairs_at(parts, place);
    bounds_with(flows, records, place, &pairs, figures)?;
    figures_in(flows, place, &pairs, figures);
    Ok(())
}

// The same on the used places of lent sections, where the steps in use end at this byte. It takes slices for the same reason as `old_answer`.
pub fn used_answer<'a>(
    nodes: usize,
    flows: usize,
    rows: &'a [u8],
    records: &'a [u8],
    steps: &'a [u8],
    end: usize,
    place: usize,
    figures: &mut [u8],
) -> Result<(), Refusal>
    requires new { New (sections nodes flows (take (row_bytes * nodes) rows.now) (take (record_bytes * flows) records.now) (take end steps.now)) }
    requires end_in_bounds { end ≤ length steps.now }
    requires carried { Carried (sections nodes flows (take (row_bytes * nodes) rows.now) (take (record_bytes * flows) records.now) (take end steps.now)) place figures.old }
    ensures { NewFigures
        (sections nodes flows (take (row_bytes * nodes) rows.now) (take (record_bytes * flows) records.now) (take end steps.now))
        figures.old (tested result) figures.new }
{
    let row_end = Node::ROW_BYTES * nodes;
    let record_end = Flow::RECORD_BYTES * flows;
    new_answer(
        nodes,
        flows,
        &rows[..row_end],
        &records[..record_end],
        &steps[..end],
        place,
        figures,
    )
}
