// Why a run is refused: codes 10, 12 and 11, in that order.
ghost use Rattle.std.specs.Prelude.{◌≡◌, false, [], ℕ, ◌*◌, ◌≤◌, ◌<◌, length};
ghost use Rattle.trade.specs.Limits.{most_flows, record_bytes};
ghost use Rattle.trade.specs.Layout.{field};
ghost use Rattle.area.specs.Refusals.{bad_at, overrun_at};

use sections::records::record_at;
use slot::release::is_released;
use trade::{Clock, Flow, Progress, Refusal, Run, Slot, Step};

// The flows that a run is tried by: their records, none with a period of 0. The run and the first releases stay beside it:
// as two more fields, references, they cost ADVANCE 8 to 28 instructions more, up to 3% of them, and 80 bytes more of stack.
#[derive(Clone, Copy)]
pub(crate) struct Timed<'a> {
    pub flows: usize,
    pub records: &'a [u8],
    pub ghost few: { flows ≤ most_flows },
    pub ghost whole: { record_bytes * flows ≤ length records.now },
    pub ghost periods: { (i : ℕ) → i < flows → 0 < field records.now i 2 },
}

// Whether the steps done by a flow are more than its L, or not its L though it was not released before the slot.
pub(crate) fn is_bad(flow: Flow, first: Slot, slot: Slot, p: Progress) -> bool
    ensures { result ≡ bad_at flow first slot p }
{
    let done = p.done.0 as u16;
    let begun = first < slot;
    (flow.len < done) | (!begun & (done != flow.len))
}

// Whether a release falls due while the flow's last instance is unfinished.
fn is_overrun(flow: Flow, first: Slot, slot: Slot, p: Progress) -> bool
    requires { 0 < flow.period }
    ensures { result ≡ overrun_at flow first slot p }
{
    is_released(first, flow.period, slot) & ((p.done.0 as u16) < flow.len)
}

impl<'a> Timed<'a> {
    ghost use Rattle.std.specs.Prelude.{◌≡◌, []};
    ghost use Rattle.trade.specs.Facts.{facts_in};
    ghost use Rattle.trade.specs.Refusals.{tested};
    ghost use Rattle.trade.specs.SlotCodes.{code10, code11};
    ghost use Rattle.slot.specs.States.{state_of};
    ghost use Rattle.area.specs.Refusals.{bad_place_at, run_answer};
    ghost use Rattle.area.specs.Dues.{due_by};

    // Whether a place is bad, by the first release of its flow. An unused one is bad if it is not 0.
    fn is_bad_place(self, first: Slot, slot: Slot, i: usize, p: Progress) -> bool
        ensures { result ≡ bad_place_at (facts_in 0 self.entry.flows [] self.entry.records.now []) first slot p i }
    {
        if self.flows <= i {
            return p.done != Step(0);
        }
        is_bad(record_at(self.records, i), first, slot, p)
    }

    // Code 10: a slot past the clock's end, or the first bad place.
    fn area_answer(self, firsts: [Slot; Flow::MOST], run: Run) -> Result<(), Refusal>
        ensures { tested result ≡ code10 (facts_in 0 self.entry.flows [] self.entry.records.now []) (due_by (facts_in 0 self.entry.flows [] self.entry.records.now []) firsts run) (state_of run) }
    {
        if Slot(Clock::END) < run.slot {
            return Err(Refusal::BadArea(0));
        }
        for (i, p) in run.flows.iter().enumerate() {
            if self.is_bad_place(firsts[i], run.slot, i, *p) {
                return Err(Refusal::BadArea(i));
            }
        }
        Ok(())
    }

    // Code 11, at the first such flow.
    fn overrun_answer(self, firsts: [Slot; Flow::MOST], run: Run) -> Result<(), Refusal>
        ensures { tested result ≡ code11 (facts_in 0 self.entry.flows [] self.entry.records.now []) (due_by (facts_in 0 self.entry.flows [] self.entry.records.now []) firsts run) (state_of run) }
    {
        for i in 0..self.flows {
            let flow = record_at(self.records, i);
            if is_overrun(flow, firsts[i], run.slot, run.flows[i]) {
                return Err(Refusal::Overrun(i));
            }
        }
        Ok(())
    }

    // Codes 10, 12 and 11 of the run.
    pub(crate) fn run_answer(self, firsts: [Slot; Flow::MOST], run: Run) -> Result<(), Refusal>
        ensures { tested result ≡ run_answer (facts_in 0 self.entry.flows [] self.entry.records.now []) (due_by (facts_in 0 self.entry.flows [] self.entry.records.now []) firsts run) (state_of run) }
    {
        self.area_answer(firsts, run)?;
        if run.slot == Slot(Clock::END) {
            return Err(Refusal::Ended);
        }
        self.overrun_answer(firsts, run)
    }
}
