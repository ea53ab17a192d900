// Why a call is refused.
ghost use Rattle.std.specs.Prelude.{◌≡◌};
ghost use Rattle.trade.specs.Refusals.{answer_of, answered, tested};

use crate::answer::Answer;

// One for each code, with the place that the code names.
#[derive(Clone, Copy, Debug, PartialEq, Eq)]
pub enum Refusal {
    // The slice has no room for a trailer.
    Short,
    // It does not end in the mark.
    Unmarked,
    // So many nodes or flows a table can't have.
    Miscounted,
    // The distances do not fit the counts or the slice.
    Astray,
    BadRow(usize),
    BadRecord(usize),
    // The steps are not as many as the plans have.
    Uneven,
    BadStep(usize),
    // A flow has no bound within its deadline.
    Late(usize),
    // A place of the run area; the first where it is the slot.
    BadArea(usize),
    // A release is due of a flow whose last instance is unfinished.
    Overrun(usize),
    // The clock has ended.
    Ended,
    // Lent memory is too short.
    NoRoom,
    // The table has no place for another flow.
    Full,
    NoPlace,
    // A figure that the table carries of a flow is wrong.
    BadFigure(usize),
}

impl Refusal {
    // Code and number of the rules.
    pub fn answer(self) -> Answer
        ensures { result ≡ answer_of self }
    {
        match self {
            Refusal::Short => Answer::refused(1, 0),
            Refusal::Unmarked => Answer::refused(2, 0),
            Refusal::Miscounted => Answer::refused(3, 0),
            Refusal::Astray => Answer::refused(4, 0),
            Refusal::BadRow(x) => Answer::refused(5, x as u64),
            Refusal::BadRecord(i) => Answer::refused(6, i as u64),
            Refusal::Uneven => Answer::refused(7, 0),
            Refusal::BadStep(k) => Answer::refused(8, k as u64),
            Refusal::Late(l) => Answer::refused(9, l as u64),
            Refusal::BadArea(i) => Answer::refused(10, i as u64),
            Refusal::Overrun(i) => Answer::refused(11, i as u64),
            Refusal::Ended => Answer::refused(12, 0),
            Refusal::NoRoom => Answer::refused(13, 0),
            Refusal::Full => Answer::refused(14, 0),
            Refusal::NoPlace => Answer::refused(15, 0),
            Refusal::BadFigure(l) => Answer::refused(17, l as u64),
        }
    }
}

// Done, or refused.
impl From<Result<(), Refusal>> for Answer {
    ghost from_gives = { λ tried answer. answer ≡ tested tried };

    fn from(tried: Result<(), Refusal>) -> Answer {
        match tried {
            Ok(()) => Answer::done(0),
            Err(refusal) => refusal.answer(),
        }
    }
}

// Done with a count, or refused.
impl From<Result<usize, Refusal>> for Answer {
    ghost from_gives = { λ tried answer. answer ≡ answered (λ count. count) tried };

    fn from(tried: Result<usize, Refusal>) -> Answer {
        match tried {
            Ok(count) => Answer::done(count as u64),
            Err(refusal) => refusal.answer(),
        }
    }
}
