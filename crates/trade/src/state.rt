// A run of a table, and what it grants.
ghost use Rattle.std.specs.Prelude.{◌≡◌};
ghost use Rattle.trade.specs.Run.{idle_of, empty_run};

use crate::clock::{Instance, Slot, Step};
use crate::flow::Flow;
use crate::node::Transmission;

// How far a flow is: the steps done by its latest instance.
#[derive(Clone, Copy, Debug, PartialEq, Eq)]
pub struct Progress {
    pub done: Step,
}

impl Progress {
    // An idle flow has done all of its steps.
    pub fn idle(len: u8) -> Self
        ensures { result ≡ idle_of len }
    {
        Progress { done: Step(len) }
    }
}

// The slot to run next, and how far the flow at each place is.
#[derive(Clone, Copy)]
pub struct Run {
    pub slot: Slot,
    pub flows: [Progress; Flow::MOST],
}

impl Run {
    // The run area: the slot, then a byte for each flow place.
    pub const SLOT_BYTES: usize = 4;

    pub const AREA_BYTES: usize = Run::SLOT_BYTES + Flow::MOST;

    // A run of no flows, about to run slot 0.
    pub fn empty() -> Self
        ensures { result ≡ empty_run }
    {
        Run {
            slot: Slot(0),
            flows: [Progress { done: Step(0) }; Flow::MOST],
        }
    }
}

// Leave for one step of one instance of a flow to be sent.
#[derive(Clone, Copy, Debug, PartialEq, Eq)]
pub struct Grant {
    pub id: u16,
    pub instance: Instance,
    pub step: Step,
    pub transmission: Transmission,
}

impl Grant {
    // A grant in the lent buffer.
    pub const BYTES: usize = 9;
}
