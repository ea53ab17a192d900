// The three calls of the radio stack under the names by which C calls them. Each is the call of radio, and owes what that owes.
#![tactic(auto)]

ghost use Rattle.radio.specs.Calls.{AnswersCheck, AnswersStart, AnswersAdvance};

// CHECK a book.
#[unsafe(no_mangle)]
pub extern "C" fn slot_check(book: &[u8]) -> u32
    ensures { AnswersCheck book.now result }
{
    radio::slot_check(book)
}

// START a run of a book, in a lent run area.
#[unsafe(no_mangle)]
pub extern "C" fn slot_start(book: &[u8], area: &mut [u8]) -> u32
    ensures { AnswersStart (record { book = book.entry.now; area = area.old }) result area.new }
{
    radio::slot_start(book, area)
}

// ADVANCE a run by one slot, with the grants in a lent buffer.
#[unsafe(no_mangle)]
pub extern "C" fn slot_advance(book: &[u8], area: &mut [u8], grants: &mut [u8]) -> u32
    ensures { AnswersAdvance (record { book = book.entry.now; area = area.old; grants = grants.old }) result
        area.new grants.new }
{
    radio::slot_advance(book, area, grants)
}
