// The steps of a book or a table: the plans in flow order with no gap, and code 8. Records come as in `records`.
ghost use Rattle.std.specs.Prelude.{◌≡◌, [], ◌+◌, ◌*◌, ◌≤◌, ◌<◌, length, IfSome, IfNone};
ghost use Rattle.trade.specs.Limits.{record_bytes, step_bytes, most_flows};
ghost use Rattle.trade.specs.First.{first, sum_to};
ghost use Rattle.trade.specs.Layout.{field};
ghost use Rattle.trade.specs.Facts.{facts_in};
ghost use Rattle.trade.specs.Codes.{code8};
ghost use Rattle.trade.specs.Refusals.{tested};
ghost use Rattle.sections.specs.Steps.{misplaced, unjoined, bad_in_plan};

use crate::at_once::steps_in_doubt;
use crate::records::len_at;
use plans::steps::step_at;
use trade::{Plan, Refusal, Transmission};

// Whether a step's sender or receiver is at or above n, or the two are equal.
fn is_misplaced(nodes: usize, t: Transmission) -> bool
    ensures { result ≡ misplaced nodes t }
{
    let sender = t.sender.0 as usize;
    let receiver = t.receiver.0 as usize;
    (nodes <= sender) | (nodes <= receiver) | (t.sender == t.receiver)
}

// Whether a step neither repeats the one before nor starts at its receiver.
fn is_unjoined(t: Transmission, before: Transmission) -> bool
    ensures { result ≡ unjoined t before }
{
    let repeats = t == before;
    let goes_on = t.sender == before.receiver;
    !(repeats | goes_on)
}

// Whether step j of a plan is one that code 8 refuses. The first of a plan has none before it.
fn is_bad_step(nodes: usize, plan: &[u8], j: usize) -> bool
    requires { step_bytes * j + 1 < length plan.now }
    ensures { result ≡ bad_in_plan nodes plan.now j }
{
    let t = step_at(plan, j);
    if j == 0 {
        return is_misplaced(nodes, t);
    }
    is_misplaced(nodes, t) | is_unjoined(t, step_at(plan, j - 1))
}

// The first bad step of a plan of len steps, which a part of the steps has in front.
fn first_bad_step(nodes: usize, plan: &[u8], len: usize) -> Option<usize>
    requires { step_bytes * len ≤ length plan.now }
    ensures found { IfSome result (λ j. (j < len) × (j ≡ first (bad_in_plan nodes plan.now) len)) }
    ensures none { IfNone result (len ≤ first (bad_in_plan nodes plan.now) len) }
{
    for j in 0..len {
        if is_bad_step(nodes, plan, j) {
            return Some(j);
        }
    }
    None
}

// Code 8 by a search through the plans, one after the other.
fn searched_steps(nodes: usize, flows: usize, records: &[u8], steps: &[u8]) -> Result<(), Refusal>
    requires flows_le_most_flows { (flows ≤ most_flows) × (record_bytes * flows ≤ length records.now) }
    requires flows_in_bounds { step_bytes * sum_to (λ i. field records.now i 4) flows ≤ length steps.now }
    ensures { tested result ≡ code8 (facts_in nodes flows [] records.now steps.now) }
{
    let mut start = 0;
    for i in 0..flows {
        let len = len_at(records, i);
        let at = Plan::STEP_BYTES * start;
        if let Some(bad) = first_bad_step(nodes, &steps[at..], len) {
            return Err(Refusal::BadStep(start + bad));
        }
        start += len;
    }
    Ok(())
}

// Code 8, at the first bad step, counted over all plans. They are searched only in doubt.
pub fn steps_answer(nodes: usize, flows: usize, records: &[u8], steps: &[u8]) -> Result<(), Refusal>
    requires flows_le_most_flows { (flows ≤ most_flows) × (record_bytes * flows ≤ length records.now) }
    requires flows_in_bounds { step_bytes * sum_to (λ i. field records.now i 4) flows ≤ length steps.now }
    ensures { tested result ≡ code8 (facts_in nodes flows [] records.now steps.now) }
{
    if steps_in_doubt(nodes, flows, records, steps) {
        return searched_steps(nodes, flows, records, steps);
    }
    Ok(())
}
