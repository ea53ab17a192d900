// ADVANCE a run by one slot.
ghost use Rattle.std.specs.Prelude.{◌*◌, ◌≤◌, length};
ghost use Rattle.trade.specs.Limits.{area_bytes, grant_bytes};
ghost use Rattle.trade.specs.Facts.{facts_in};
ghost use Rattle.trade.specs.Refusals.{answered};
ghost use Rattle.run.specs.Calls.{RunsSlot, Advances};

use area::area::{read_run, write_run};
use area::due::due_in;
use book::parts::open_book;
use sections::parts::Parts;
use slot::choice::chosen;
use slot::granting::grant_all;
use trade::{Grant, Refusal, Run};

// One slot over the sections of a book: codes 10, 12 and 11 are tested before anything is written. Then the slot's grants go into one
// buffer, and the run as it goes on into the other. How many grants there are.
fn run_slot(parts: Parts, area: &mut [u8], grants: &mut [u8]) -> Result<usize, Refusal>
    requires { (area_bytes ≤ length area.old) × (grant_bytes * parts.flows ≤ length grants.old) }
    ensures { RunsSlot (facts_in 0 parts.entry.flows parts.entry.rows.now parts.entry.records.now parts.entry.steps.now) area.old grants.old
        (answered (λ n. n) result) area.new grants.new }
{
    let due = due_in(parts.flows, parts.records, read_run(area));
    due.test?;
    let choice = chosen(parts, due.run);
    let out = grant_all(parts.records, due.firsts, due.run, choice, grants);
    write_run(area, out.run);
    Ok(out.count)
}

// ADVANCE: codes 1 to 8 and 13, then those of the slot. The count of grants, or why the call is refused, which leaves both buffers as lent.
pub fn advance(book: &[u8], area: &mut [u8], grants: &mut [u8]) -> Result<usize, Refusal>
    ensures { Advances (record { book = book.entry.now; area = area.old; grants = grants.old }) (answered (λ n. n) result)
        area.new grants.new }
{
    let parts = open_book(book)?;
    if area.len() < Run::AREA_BYTES {
        return Err(Refusal::NoRoom);
    }
    if grants.len() < Grant::BYTES * parts.flows {
        return Err(Refusal::NoRoom);
    }
    run_slot(parts, area, grants)
}
