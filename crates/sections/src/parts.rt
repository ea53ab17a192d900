// The sections of a book or a table that passed, where they lie. Whoever makes the value has proved that they are formed, as far as the bounds and
// a slot read them. Of code 3 only that there are at most 32 flows is a part of that; code 5, the ids and phases of 6, and that steps go on from
// one another, are none.
ghost use Rattle.sections.specs.Formed.{Formed};

use crate::records::{len_at, record_at, steps_before};
use plans::steps::plan_part;
use trade::Flow;

// How many nodes and flows they are of, and the rows, the records and the steps.
#[derive(Clone, Copy)]
pub struct Parts<'a> {
    pub nodes: usize,
    pub flows: usize,
    pub rows: &'a [u8],
    pub records: &'a [u8],
    pub steps: &'a [u8],
    pub ghost formed: { Formed flows rows.now records.now steps.now },
}

impl<'a> Parts<'a> {
    ghost use Rattle.std.specs.Prelude.{◌≡◌, ◌<◌};
    ghost use Rattle.trade.specs.Facts.{flow_in};
    ghost use Rattle.sections.specs.Formed.{plan_at};

    // The flow at a place.
    pub fn flow(self, i: usize) -> Flow
        requires { i < self.flows }
        ensures { result ≡ flow_in self.entry.records.now i }
    {
        record_at(self.records, i)
    }

    // Its plan.
    pub fn plan(self, i: usize) -> &'a [u8]
        requires { i < self.flows }
        ensures { result.now ≡ plan_at self.entry.records.now self.entry.steps.now i }
    {
        plan_part(
            self.steps,
            steps_before(self.records, i),
            len_at(self.records, i),
        )
    }
}
