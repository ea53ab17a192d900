// Which flows go in a slot that has its releases: a set of places, chosen in record order.
ghost use Rattle.std.specs.Prelude.{◌≡◌, length};
ghost use Rattle.trade.specs.Limits.{most_flows};
ghost use Rattle.trade.specs.Facts.{facts_in};
ghost use Rattle.slot.specs.States.{state_of};
ghost use Rattle.slot.specs.Choice.{Turning, Turned, Chooses};

use nodes::grants::GrantSet;
use plans::view::plan_step;
use sections::parts::Parts;
use sections::records::len_at;
use trade::{Flow, Node, Run, Step, Transmission};

// A flow's turn: where its plan starts, the plan's length, and the steps done by its latest instance.
#[derive(Clone, Copy)]
pub struct Turn {
    pub start: usize,
    pub len: usize,
    pub done: Step,
}

// The flows that go: their places as a set, and what each of them sends. There is no heap for a list of those that go.
#[derive(Clone, Copy)]
pub struct Choice {
    pub places: u32,
    pub sent: [Transmission; Flow::MOST],
}

// One flow's turn: its next step joins the set and is sent, unless the flow has finished or the step conflicts with a grant already made.
fn take_turn(rows: &[u8], steps: &[u8], turn: Turn, set: &mut GrantSet) -> Option<Transmission>
    requires { Turning rows.now steps.now turn }
    ensures { Turned rows.now steps.now turn set.old result set.new }
{
    let done = turn.done.0 as usize;
    if turn.len <= done {
        return None;
    }
    let step = plan_step(steps, turn.start, turn.len, done);
    if set.clashes(rows, step) {
        None
    } else {
        *set = set.with(rows, step);
        Some(step)
    }
}

// The flows that go, by the sections of a book and a run that has the releases of its slot.
pub fn chosen(parts: Parts, run: Run) -> Choice
    requires { length run.flows ≡ most_flows }
    ensures { Chooses (facts_in 0 parts.entry.flows parts.entry.rows.now parts.entry.records.now parts.entry.steps.now) (state_of run) result }
{
    let mut set = GrantSet::empty();
    let mut places = 0;
    let mut sent = [Transmission {
        sender: Node(0),
        receiver: Node(0),
    }; Flow::MOST];
    let mut start = 0;
    for i in 0..parts.flows {
        let len = len_at(parts.records, i);
        let done = run.flows[i].done;
        if let Some(step) = take_turn(
            parts.rows,
            parts.steps,
            Turn { start, len, done },
            &mut set,
        ) {
            places |= 1 << i;
            sent[i] = step;
        }
        start += len;
    }
    Choice { places, sent }
}
