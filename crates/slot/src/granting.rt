// The grants of the flows that go, and the run as it goes on.
ghost use Rattle.std.specs.Prelude.{◌≡◌, ◌<◌, length};
ghost use Rattle.slot.specs.Granting.{Granting, grant_by, Grants};

use crate::choice::Choice;
use crate::release::instance_at;
use crate::writer::write_grant;
use sections::records::record_at;
use trade::{Flow, Grant, Run, Slot, Step, Transmission};

// What a slot leaves: the run as it goes on, and the count of grants.
#[derive(Clone, Copy)]
pub struct Outcome {
    pub run: Run,
    pub count: usize,
}

// The grant of a flow's next step.
fn grant_of(flow: Flow, first: Slot, slot: Slot, done: Step, step: Transmission) -> Grant
    requires { 0 < flow.period }
    ensures { result ≡ grant_by flow first slot done step }
{
    Grant {
        id: flow.id,
        instance: instance_at(first, flow.period, slot),
        step: done,
        transmission: step,
    }
}

// The flows that go are granted their next steps in record order, each in its own part of the lent buffer.
pub fn grant_all(
    records: &[u8],
    firsts: [Slot; Flow::MOST],
    mut run: Run,
    choice: Choice,
    grants: &mut [u8],
) -> Outcome
    requires { Granting records.now run choice (length grants.old) }
    ensures { Grants records.now firsts run choice grants.old result grants.new }
{
    let slot = run.slot;
    let mut rest = choice.places;
    let mut count = 0;
    // The places of a set are its bits: the lowest that is left goes next. `Members` would give them as nodes, which they are not.
    while rest != 0 {
        let i = rest.trailing_zeros() as usize;
        let done = run.flows[i].done;
        let grant = grant_of(record_at(records, i), firsts[i], slot, done, choice.sent[i]);
        write_grant(&mut grants[Grant::BYTES * count..], grant);
        run.flows[i].done = Step(done.0 + 1);
        count += 1;
        rest &= rest - 1;
    }
    run.slot = Slot(slot.0 + 1);
    Outcome { run, count }
}
