// A flow that comes into a lent table, at a place.
ghost use Rattle.std.specs.Prelude.{◌≡◌, min};
ghost use Rattle.trade.specs.Limits.{most_steps};
ghost use Rattle.trade.specs.Calls.{record_of, add_of};
ghost use Rattle.trade.specs.Refusals.{tested};
ghost use Rattle.table.specs.Table.{kept_in};
ghost use Rattle.changes.specs.Change.{Returns};
ghost use Rattle.changes.specs.Moved.{Coming, Comes};

use crate::handed::whole;
use cut::cut::{clear, put_in, take_out};
use numbers::numbers::put_word;
use rules::rules::{enter_answer, used_answer};
use sections::records::steps_before;
use table::table::Table;
use trade::{Flow, Node, Plan, Refusal};

// A flow's record, ten bytes. Not a `From`, since neither of the two types is this crate's own.
fn record_bytes(f: Flow) -> [u8; Flow::RECORD_BYTES]
    ensures { result ≡ record_of f }
{
    let mut record = [0u8; Flow::RECORD_BYTES];
    put_word(&mut record, 0, f.id);
    put_word(&mut record, 2, f.phase);
    put_word(&mut record, 4, f.period);
    put_word(&mut record, 6, f.deadline);
    put_word(&mut record, 8, f.len);
    record
}

// The step places that a flow takes of its plan, which has no more than the most: a longer L takes them all, and the new table's code
// 6 refuses it.
fn places_taken(f: Flow) -> usize
    ensures { result ≡ min f.len most_steps }
{
    (f.len as usize).min(Plan::MOST)
}

// A flow with this record and these steps put in, and codes 6, 8 and 9 on the table with it. Done, the unused places are zero and the
// figures those of the new table; refused, it is taken out again.
fn flow_in(table: &mut Table, place: usize, flow: &mut [u8], plan: &mut [u8]) -> Result<(), Refusal>
    requires { Coming (kept_in table.old) place flow.old plan.old }
    ensures { Comes (kept_in table.old) place flow.old plan.old (tested result) (kept_in table.new) }
{
    let nodes = table.nodes as usize;
    let count = table.flows as usize;
    let at = Flow::RECORD_BYTES * place;
    let end = Flow::RECORD_BYTES * count;
    let step_at = Plan::STEP_BYTES * steps_before(&table.records, place);
    let step_end = Plan::STEP_BYTES * steps_before(&table.records, count);
    let new_end = step_end + plan.len();
    put_in(&mut table.records, at, end, flow);
    put_in(&mut table.steps, step_at, step_end, plan);
    match used_answer(
        nodes,
        count + 1,
        &table.rows,
        &table.records,
        &table.steps,
        new_end,
        place,
        &mut table.figures,
    ) {
        Ok(()) => {
            table.flows = (count + 1) as u8;
            clear(&mut table.rows, Node::ROW_BYTES * nodes);
            clear(&mut table.records, Flow::RECORD_BYTES * (count + 1));
            clear(&mut table.steps, new_end);
            Ok(())
        }
        Err(refusal) => {
            take_out(&mut table.records, at, end, flow);
            take_out(&mut table.steps, step_at, step_end, plan);
            Err(refusal)
        }
    }
}

// Codes 3, 5, 6, 8 and 17 on the table, 14 and 15, then 6, 8 and 9 on the one with the flow. Refused, the table stays as it is.
pub(crate) fn enter(
    table: &mut Table,
    place: usize,
    flow: Flow,
    plan: [u8; Plan::MOST * Plan::STEP_BYTES],
) -> Result<(), Refusal>
    ensures { Returns (add_of (record { table = kept_in table.old; place = place; flow = flow; plan = plan })) (tested result)
        (kept_in table.new) }
{
    let count = table.flows as usize;
    whole(table)?;
    enter_answer(count, place)?;
    let size = Plan::STEP_BYTES * places_taken(flow);
    let mut record = record_bytes(flow);
    let mut taken = plan;
    flow_in(table, place, &mut record, &mut taken[..size])
}
