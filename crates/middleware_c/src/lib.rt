// The calls of the middleware under the names by which C calls them. Each is the call of middleware, and owes what that owes.
#![tactic(auto)]

ghost use Rattle.middleware.specs.Calls.{AnswersWhy};

// ASK why a flow is silent in the slot that a run is about to run, or is not.
#[unsafe(no_mangle)]
pub extern "C" fn slot_why(book: &[u8], area: &[u8], place: usize) -> u32
    ensures { AnswersWhy (record { book = book.entry.now; area = area.now; place = place }) result }
{
    middleware::slot_why(book, area, place)
}
