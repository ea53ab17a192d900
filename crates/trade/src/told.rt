// What is told of a flow in the slot that a run is about to run.
ghost use Rattle.std.specs.Prelude.{◌≡◌};
ghost use Rattle.trade.specs.Why.{answer_of};

use crate::answer::Answer;

// Why a flow is silent in the slot, or that it is not; or that the call is refused: one enum, as `ask_of` has it. A flow that waits does so on
// the flow at a place.
#[derive(Clone, Copy, Debug, PartialEq, Eq)]
pub enum Told {
    Refused(Answer),
    NotReleased,
    Finished,
    Granted,
    WaitingOn(u8),
}

impl Told {
    // What stands for each of the four in an answer's number, beside the place that is waited for: `answer_of` says so, for C.
    pub const KIND: u64 = 256;

    // In one answer.
    pub fn answer(self) -> Answer
        ensures { result ≡ answer_of self }
    {
        match self {
            Told::Refused(answer) => answer,
            Told::NotReleased => Answer::done(0),
            Told::Finished => Answer::done(Told::KIND),
            Told::Granted => Answer::done(2 * Told::KIND),
            Told::WaitingOn(place) => Answer::done(3 * Told::KIND + place as u64),
        }
    }
}
