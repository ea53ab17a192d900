// A flow that goes from a lent table.
ghost use Rattle.std.specs.Prelude.{◌≡◌};
ghost use Rattle.trade.specs.Table.{used};
ghost use Rattle.trade.specs.Kept.{kept_of};
ghost use Rattle.trade.specs.Exchange.{recut};
ghost use Rattle.trade.specs.Calls.{leaving, remove_of};
ghost use Rattle.trade.specs.Refusals.{tested};
ghost use Rattle.table.specs.Table.{sections_in, kept_in};
ghost use Rattle.changes.specs.Change.{Returns};
ghost use Rattle.changes.specs.Moved.{Leaving};

use crate::handed::whole;
use cut::cut::{clear, turn};
use rules::rules::leave_answer;
use sections::records::steps_before;
use square::carried::figures_out;
use table::table::Table;
use trade::{Flow, Node, Plan, Refusal};

// The flow at a place taken out, and the unused places zero: its record and its steps change about with those behind them.
fn flow_out(table: &mut Table, place: usize)
    requires { Leaving (kept_in table.old) place }
    ensures { kept_in table.new ≡ kept_of (recut (used (sections_in table.old)) (leaving place)) }
{
    let nodes = table.nodes as usize;
    let flows = table.flows as usize;
    let from = Flow::RECORD_BYTES * place;
    let to = from + Flow::RECORD_BYTES;
    let end = Flow::RECORD_BYTES * flows;
    let first = Plan::STEP_BYTES * steps_before(&table.records, place);
    let next = Plan::STEP_BYTES * steps_before(&table.records, place + 1);
    let last = Plan::STEP_BYTES * steps_before(&table.records, flows);
    turn(&mut table.records, from, to, end);
    turn(&mut table.steps, first, next, last);
    clear(&mut table.rows, Node::ROW_BYTES * nodes);
    clear(&mut table.records, end - Flow::RECORD_BYTES);
    clear(&mut table.steps, last - (next - first));
    figures_out(flows - 1, place, &mut table.figures);
    table.flows = (flows - 1) as u8;
}

// Codes 3, 5, 6, 8 and 17 on the table, then 15. Refused, the table stays as it is.
pub(crate) fn leave(table: &mut Table, place: usize) -> Result<(), Refusal>
    ensures { Returns (remove_of (record { table = kept_in table.old; place = place })) (tested result) (kept_in table.new) }
{
    let count = table.flows as usize;
    whole(table)?;
    leave_answer(count, place)?;
    flow_out(table, place);
    Ok(())
}
