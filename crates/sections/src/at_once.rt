// Code 8 told from the highest node and two counts over the steps of all plans, with no branch that a step decides: the steps that do
// not follow on from the one before them, whichever plan that is of, and those of them that are the first of a plan. No step is bad
// if every node is there and the two counts agree. Records come as in `records`.
ghost use Rattle.std.specs.Prelude.{◌≡◌, false, not, ◌&&◌, [], ℕ, ◌+◌, ◌*◌, ◌/◌, ◌%◌, ◌≤◌, ◌<◌, eqb, length};
ghost use Rattle.trade.specs.Limits.{record_bytes, step_bytes, most_flows, most_steps};
ghost use Rattle.trade.specs.First.{sum_to};
ghost use Rattle.trade.specs.Bytes.{byte};
ghost use Rattle.trade.specs.Layout.{field};
ghost use Rattle.trade.specs.Facts.{facts_in, step_in};
ghost use Rattle.trade.specs.Interference.{one};
ghost use Rattle.trade.specs.Answers.{done};
ghost use Rattle.trade.specs.Codes.{code8};
ghost use Rattle.sections.specs.Steps.{off, fresh, starts_anew};

use crate::records::len_at;
use trade::{Flow, Plan};

// The steps of all plans, and how many plans start anew.
#[derive(Clone, Copy)]
struct Begun {
    all: usize,
    anew: u16,
}

// The two bytes of a step as one number, the sender the lower, so that a loop reads many steps together.
fn both_at(steps: &[u8], k: usize) -> u16
    requires { step_bytes * k + 1 < length steps.now }
    ensures { (result % 256 ≡ (step_in steps.now k).sender.0) × (result / 256 ≡ (step_in steps.now k).receiver.0) }
{
    let at = Plan::STEP_BYTES * k;
    (steps[at + 1] as u16) * 256 + (steps[at] as u16)
}

// Whether a step, not the first of all, goes to its own sender or does not follow on from the one before.
fn is_off(steps: &[u8], k: usize) -> bool
    requires { (1 ≤ k) × (step_bytes * k + 1 < length steps.now) }
    ensures { result ≡ off steps.now k }
{
    let step = both_at(steps, k);
    let before = both_at(steps, k - 1);
    let sender = step % 256;
    let joined = (step == before) | (sender == before / 256);
    (sender == step / 256) | !joined
}

// How many of the first steps are off. The first of all follows on from none.
fn count_off(steps: &[u8], all: usize) -> u16
    requires { (1 ≤ all) × (all ≤ most_flows * most_steps) × (step_bytes * all ≤ length steps.now) }
    ensures { result ≡ sum_to (λ k. one (off steps.now k)) all }
{
    let first = both_at(steps, 0);
    let mut count = u16::from(first % 256 == first / 256);
    for k in 1..all {
        count += u16::from(is_off(steps, k));
    }
    count
}

// A node that none of the first bytes is above.
fn highest(bytes: &[u8], count: usize) -> u8
    requires { count ≤ length bytes.now }
    ensures { (k : ℕ) → k < count → byte bytes.now k ≤ result }
{
    let mut most: u8 = 0;
    for b in &bytes[..count] {
        most = most.max(*b);
    }
    most
}

// Whether a plan of len steps has a first one, which is off for no more than starting anew.
fn starts_anew(steps: &[u8], at: usize, len: usize) -> bool
    requires { step_bytes * (at + len) ≤ length steps.now }
    ensures { result ≡ (not (eqb len 0) && fresh steps.now at) }
{
    if len == 0 {
        return false;
    }
    let step = both_at(steps, at);
    let last = both_at(steps, at.saturating_sub(1));
    let sender = step % 256;
    let joined = (step == last) | (sender == last / 256);
    (sender != step / 256) & !joined
}

// How many plans start anew, and the steps of all.
fn count_anew(flows: usize, records: &[u8], steps: &[u8]) -> Begun
    requires flows_le_most_flows { (flows ≤ most_flows) × (record_bytes * flows ≤ length records.now) }
    requires flows_in_bounds { step_bytes * sum_to (λ i. field records.now i 4) flows ≤ length steps.now }
    ensures { (result.all ≡ sum_to (λ i. field records.now i 4) flows)
        × (result.anew ≡ sum_to (λ i. one (starts_anew records.now steps.now i)) flows) }
{
    let mut all = 0;
    let mut anew = 0;
    for i in 0..flows {
        let len = len_at(records, i);
        anew += u16::from(starts_anew(steps, all, len));
        all += len;
    }
    Begun { all, anew }
}

// Whether code 8 is in doubt: a node is not there, or the two counts do not agree. If not, it is not given.
pub(crate) fn steps_in_doubt(nodes: usize, flows: usize, records: &[u8], steps: &[u8]) -> bool
    requires flows_le_most_flows { (flows ≤ most_flows) × (record_bytes * flows ≤ length records.now) }
    requires flows_in_bounds { step_bytes * sum_to (λ i. field records.now i 4) flows ≤ length steps.now }
    ensures { result ≡ false → code8 (facts_in nodes flows [] records.now steps.now) ≡ done 0 }
{
    let begun = count_anew(flows, records, steps);
    let all = begun.all;
    if (all < 1) | (Flow::MOST * Plan::MOST < all) {
        return true;
    }
    let beyond = nodes <= (highest(steps, Plan::STEP_BYTES * all) as usize);
    beyond | (count_off(steps, all) != begun.anew)
}
