// The figures of the other files side by side, so that one contract ties each to its name in specs/.
ghost use Rattle.std.specs.Prelude.{◌≡◌};
ghost use Rattle.trade.specs.Limits.{limits_of};

use crate::answer::Answer;
use crate::clock::Clock;
use crate::flow::{Flow, Plan};
use crate::layout::Book;
use crate::node::Node;
use crate::state::{Grant, Run};

#[derive(Clone, Copy)]
pub struct Limits {
    pub nodes: usize,
    pub flows: usize,
    pub steps: usize,
    pub id: u16,
    pub phase: u16,
    pub period: u16,
    pub last_slot: u32,
    pub row_bytes: usize,
    pub record_bytes: usize,
    pub step_bytes: usize,
    pub trailer_bytes: usize,
    pub slot_bytes: usize,
    pub area_bytes: usize,
    pub grant_bytes: usize,
    pub packing: u32,
    pub mark: [u8; 2],
}

// Every figure, as the types that it limits have it.
pub fn all_limits() -> Limits
    ensures { result ≡ limits_of }
{
    Limits {
        nodes: Node::MOST,
        flows: Flow::MOST,
        steps: Plan::MOST,
        id: Flow::MOST_ID,
        phase: Flow::MOST_PHASE,
        period: Flow::MOST_PERIOD,
        last_slot: Clock::LAST,
        row_bytes: Node::ROW_BYTES,
        record_bytes: Flow::RECORD_BYTES,
        step_bytes: Plan::STEP_BYTES,
        trailer_bytes: Book::TRAILER_BYTES,
        slot_bytes: Run::SLOT_BYTES,
        area_bytes: Run::AREA_BYTES,
        grant_bytes: Grant::BYTES,
        packing: Answer::PACKING,
        mark: Book::MARK,
    }
}
