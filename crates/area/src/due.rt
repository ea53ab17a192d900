// What is due in a slot: one look at every flow, for its release and for the rules that refuse a run.
ghost use Rattle.std.specs.Prelude.{◌≡◌, false, [], ℕ, ◌*◌, ◌≤◌, ◌<◌, length};
ghost use Rattle.trade.specs.Limits.{most_flows, record_bytes};
ghost use Rattle.trade.specs.Layout.{field};
ghost use Rattle.trade.specs.Facts.{facts_in};
ghost use Rattle.slot.specs.States.{place_of};
ghost use Rattle.area.specs.Dues.{IsDue};

use crate::refusals::{Timed, is_bad};
use sections::records::record_at;
use slot::release::is_released;
use trade::{Clock, Flow, Progress, Refusal, Run, Slot, Step};

// What codes 10, 12 and 11 say of a run, the run after the releases of its slot, and the first release of each flow. The last two stand
// beside the Result, not in its Ok: taken out of there they cost ADVANCE 94 to 234 instructions more, and 368 bytes more of stack.
#[derive(Clone, Copy)]
pub struct Due {
    pub test: Result<(), Refusal>,
    pub run: Run,
    pub firsts: [Slot; Flow::MOST],
}

// Whether an unused place is not 0. All are looked at, with no branch on what they hold.
fn has_stray(flows: usize, run: Run) -> bool
    requires { length run.flows ≡ most_flows }
    ensures { result ≡ false → (i : ℕ) → flows ≤ i → i < most_flows → place_of run.flows i ≡ 0 }
{
    let mut stray = false;
    for i in flows..Flow::MOST {
        stray |= run.flows[i].done != Step(0);
    }
    stray
}

// One look at every flow, whose first release is its phase. A release sets the steps done to 0, and must not find any left; each flow's
// period divides once. Which rule refuses a run in doubt, and where, is for the tests of the rules in their order, which a run in good
// order never reaches.
pub fn due_in(flows: usize, records: &[u8], run: Run) -> Due
    requires { (record_bytes * flows ≤ length records.now) × ((i : ℕ) → i < flows → 0 < field records.now i 2) × (flows ≤ most_flows) × (length run.flows ≡ most_flows) }
    ensures { IsDue (facts_in 0 flows [] records.now []) run result }
{
    let slot = run.slot;
    let mut released = run;
    let mut firsts = [Slot(0); Flow::MOST];
    let mut doubt = (Slot(Clock::LAST) < slot) | has_stray(flows, run);
    for i in 0..flows {
        let flow = record_at(records, i);
        let first = Slot(flow.phase as u32);
        let p = run.flows[i];
        firsts[i] = first;
        doubt |= is_bad(flow, first, slot, p);
        if is_released(first, flow.period, slot) {
            doubt |= (p.done.0 as u16) < flow.len;
            released.flows[i] = Progress { done: Step(0) };
        }
    }
    // The rules read the run only in doubt: where one look at all flows has left none, none of the three refuses it.
    let test = if doubt {
        Timed { flows, records }.run_answer(firsts, run)
    } else {
        Ok(())
    };
    Due {
        test,
        run: released,
        firsts,
    }
}
