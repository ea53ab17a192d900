// ASK why a flow is silent in the slot that a run is about to run, or is not.
ghost use Rattle.std.specs.Prelude.{◌≡◌, true, ◌&&◌, ℕ, ◌≤◌, ◌<◌, leb, length};
ghost use Rattle.trade.specs.Limits.{most_flows, area_bytes};
ghost use Rattle.trade.specs.First.{first};
ghost use Rattle.trade.specs.Bytes.{bit};
ghost use Rattle.trade.specs.Facts.{facts_in, disturbs_in};
ghost use Rattle.trade.specs.Conflict.{conflict};
ghost use Rattle.trade.specs.Why.{why, ask_of};
ghost use Rattle.nodes.specs.Network.{Within};
ghost use Rattle.slot.specs.States.{state_of};
ghost use Rattle.slot.specs.Choice.{sent_at};
ghost use Rattle.why.specs.Told.{Blockers, begun_by, told_of, ToldIn};

use area::area::read_run;
use area::due::due_in;
use book::parts::open_book;
use nodes::conflict::conflict;
use plans::view::plan_step;
use sections::parts::Parts;
use sections::records::{len_at, steps_before};
use slot::choice::{Choice, chosen};
use trade::{Refusal, Run, Slot, Told, Transmission};

// Whether a place is in a set of places.
fn has_place(places: u32, i: usize) -> bool
    requires { i < most_flows }
    ensures { result ≡ bit places i }
{
    (places >> i) % 2 == 1
}

// The first flow above a place that goes and whose step conflicts with this one; the place itself where there is none. A flow that waits
// has one, so that of an Option the None would never come.
fn blocker(rows: &[u8], choice: Choice, step: Transmission, place: usize) -> usize
    requires { Blockers rows.now choice step place }
    ensures { result ≡ first (λ h. bit choice.places h && conflict (disturbs_in rows.now) (sent_at choice.sent h) step) place }
{
    for h in 0..place {
        if has_place(choice.places, h) && conflict(rows, choice.sent[h], step) {
            return h;
        }
    }
    place
}

// What is told of the flow at a place, by its first release and a run that has the releases of its slot.
fn told(parts: Parts, run: Run, first: Slot, place: usize) -> Told
    requires { (length run.flows ≡ most_flows) × (place < parts.flows) }
    ensures { result ≡ why (facts_in 0 parts.entry.flows parts.entry.rows.now parts.entry.records.now parts.entry.steps.now) (begun_by (leb first.0 run.slot.0)) (state_of run) place }
{
    if run.slot < first {
        return Told::NotReleased;
    }
    let done = run.flows[place].done.0 as usize;
    let len = len_at(parts.records, place);
    if len <= done {
        return Told::Finished;
    }
    let choice = chosen(parts, run);
    if has_place(choice.places, place) {
        return Told::Granted;
    }
    let step = plan_step(parts.steps, steps_before(parts.records, place), len, done);
    Told::WaitingOn(blocker(parts.rows, choice, step, place) as u8)
}

// The same of the run that an area holds: codes 10, 12 and 11, then 15.
fn told_in(parts: Parts, area: &[u8], place: usize) -> Result<Told, Refusal>
    requires { area_bytes ≤ length area.now }
    ensures { ToldIn (facts_in 0 parts.entry.flows parts.entry.rows.now parts.entry.records.now parts.entry.steps.now) area.now place result }
{
    let due = due_in(parts.flows, parts.records, read_run(area));
    due.test?;
    if parts.flows <= place {
        return Err(Refusal::NoPlace);
    }
    Ok(told(parts, due.run, due.firsts[place], place))
}

// Codes 1 to 8 and 13, then those of the slot and of the place.
fn told_by(book: &[u8], area: &[u8], place: usize) -> Result<Told, Refusal>
    ensures { told_of result ≡ ask_of (record { book = book.entry.now; area = area.now; place = place }) }
{
    let parts = open_book(book)?;
    if area.len() < Run::AREA_BYTES {
        return Err(Refusal::NoRoom);
    }
    told_in(parts, area, place)
}

// ASK: what is told, or why the call is refused. It writes nothing.
pub fn why(book: &[u8], area: &[u8], place: usize) -> Told
    ensures { result ≡ ask_of (record { book = book.entry.now; area = area.now; place = place }) }
{
    match told_by(book, area, place) {
        Ok(told) => told,
        Err(refusal) => Told::Refused(refusal.answer()),
    }
}
