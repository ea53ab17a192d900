// The listing of a book: the bounds of its flows and the grants of its first slots, or why it is refused.
use crate::lines::{print_book, print_bound, print_grant, print_refusal};
use crate::stop::{Stop, print_end};
use book::parts::open_book;
use bounds::acceptance::check;
use bounds::bounds::{Bounds, Checked};
use run::advance::advance;
use run::start::start;
use sections::parts::Parts;
use std::io;
use trade::{Flow, Grant, Run, Slot};

// So many slots are listed.
pub const SLOTS: u32 = 12;

// The bound of each flow, in record order.
fn list_bounds(rt: &impl Print, parts: Parts, bounds: &Bounds) -> io::Result<()> {
    let bounds = &bounds[..parts.flows];
    for (i, bound) in bounds.iter().enumerate() {
        print_bound(rt, parts.flow(i), *bound)?;
    }
    Ok(())
}

// The grants of a slot.
fn list_grants(rt: &impl Print, slot: Slot, grants: &[u8]) -> io::Result<()> {
    let (grants, _) = grants.as_chunks::<{ Grant::BYTES }>();
    for grant in grants {
        print_grant(rt, slot, grant)?;
    }
    Ok(())
}

// A run from its start, slot by slot.
fn list_run(rt: &impl Print, book: &[u8]) -> Result<(), Stop> {
    let mut area = [0u8; Run::AREA_BYTES];
    let mut grants = [0u8; Flow::MOST * Grant::BYTES];
    start(book, &mut area)?;
    for slot in 0..SLOTS {
        let count = advance(book, &mut area, &mut grants)?;
        list_grants(rt, Slot(slot), &grants[..Grant::BYTES * count])?;
    }
    Ok(())
}

// A book that check accepts, with the bounds that it reports.
fn list_book(rt: &impl Print, book: &[u8], bounds: &Bounds) -> Result<(), Stop> {
    let parts = open_book(book)?;
    print_book(rt, parts.nodes, parts.flows)?;
    list_bounds(rt, parts, bounds)?;
    list_run(rt, book)
}

// A book is refused as a whole, before anything else is printed. Check promises zeros beside a refusal and is no Result, so its code is asked.
pub fn list(rt: &impl Print, book: &[u8]) -> io::Result<()> {
    let Checked { answer, bounds } = check(book);
    if answer.code != 0 {
        return print_refusal(rt, answer);
    }
    print_end(rt, list_book(rt, book, &bounds))
}
