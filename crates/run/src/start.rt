// START a run of a book that check accepts.
ghost use Rattle.trade.specs.Refusals.{tested};
ghost use Rattle.run.specs.Idle.{Idle};
ghost use Rattle.run.specs.Calls.{Starts};

use area::area::write_run;
use book::parts::open_book;
use bounds::bounds::bounds_of;
use sections::parts::Parts;
use sections::records::len_at;
use trade::{Progress, Refusal, Run};

// A run about to run slot 0, with every flow idle and every other place 0.
fn started(parts: Parts) -> Run
    ensures { Idle parts.entry.flows parts.entry.records.now result }
{
    let mut run = Run::empty();
    for i in 0..parts.flows {
        run.flows[i] = Progress::idle(len_at(parts.records, i) as u8);
    }
    run
}

// START: codes 1 to 8, 9 and 13 are tested before anything is written. Done, or why the call is refused, which leaves the area as lent.
pub fn start(book: &[u8], area: &mut [u8]) -> Result<(), Refusal>
    ensures { Starts (record { book = book.entry.now; area = area.old }) (tested result) area.new }
{
    let parts = open_book(book)?;
    bounds_of(parts)?;
    if area.len() < Run::AREA_BYTES {
        return Err(Refusal::NoRoom);
    }
    write_run(area, started(parts));
    Ok(())
}
