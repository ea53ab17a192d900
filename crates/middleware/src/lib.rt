// The calls of the middleware, written in C. Each answers one number: code × 65,536 plus the number that goes with the code.
// middleware_c hands them out to C.
#![tactic(auto)]

ghost use Rattle.middleware.specs.Calls.{AnswersWhy};

use why::told::why;

// ASK why a flow is silent in the slot that a run is about to run, or is not.
pub fn slot_why(book: &[u8], area: &[u8], place: usize) -> u32
    ensures { AnswersWhy (record { book = book.entry.now; area = area.now; place = place }) result }
{
    let told = why(book, area, place);
    let answer = told.answer();
    answer.packed()
}
