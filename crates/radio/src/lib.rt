// The three calls of the radio stack, written in C. Each answers one number: code × 65,536 plus the number that goes with the code.
// radio_c hands them out to C.
#![tactic(auto)]

ghost use Rattle.radio.specs.Calls.{AnswersCheck, AnswersStart, AnswersAdvance};

use bounds::acceptance::check;
use run::advance::advance;
use run::start::start;
use trade::Answer;

// CHECK a book.
pub fn slot_check(book: &[u8]) -> u32
    ensures { AnswersCheck book.now result }
{
    check(book).answer.packed()
}

// START a run of a book, in a lent run area.
pub fn slot_start(book: &[u8], area: &mut [u8]) -> u32
    ensures { AnswersStart (record { book = book.entry.now; area = area.old }) result area.new }
{
    let answer = Answer::from(start(book, area));
    answer.packed()
}

// ADVANCE a run by one slot, with the grants in a lent buffer.
pub fn slot_advance(book: &[u8], area: &mut [u8], grants: &mut [u8]) -> u32
    ensures { AnswersAdvance (record { book = book.entry.now; area = area.old; grants = grants.old }) result
        area.new grants.new }
{
    let answer = Answer::from(advance(book, area, grants));
    answer.packed()
}
