// Why each flow of a book waits in each of its first slots, or that it does not.
use book::parts::open_book;
use listing::lines::print_book;
use listing::stop::{Stop, print_end};
use run::advance::advance;
use run::start::start;
use sections::parts::Parts;
use std::io;
use trade::{Flow, Grant, Refusal, Run, Slot, Told};
use why::told::why;

// A run of a book.
#[derive(Drop)]
struct Course<'a> {
    book: &'a [u8],
    parts: Parts<'a>,
    area: [u8; Run::AREA_BYTES],
}

impl<'a> Course<'a> {
    fn start(book: &'a [u8]) -> Result<Self, Refusal> {
        let parts = open_book(book)?;
        let mut area = [0u8; Run::AREA_BYTES];
        start(book, &mut area)?;
        Ok(Course { book, parts, area })
    }

    // The id of the flow at a place; none where the book has no such place.
    fn id_at(&self, place: usize) -> Option<u16> {
        (place < self.parts.flows).then(|| self.parts.flow(place).id)
    }

    // The end of a line: what is told. The flow that is waited on is named by its id; the book has it, so 0, which is no id, is never printed.
    fn print_told(&self, rt: &impl Print, told: Told) -> io::Result<()> {
        match told {
            Told::Refused(answer) => println!(rt; " REFUSED {answer}"),
            Told::NotReleased => println!(rt; " not released"),
            Told::Finished => println!(rt; " finished"),
            Told::Granted => println!(rt; " granted"),
            Told::WaitingOn(place) => {
                let id = self.id_at(usize::from(place)).unwrap_or(0);
                println!(rt; " waits on {id}")
            }
        }
    }

    // A line for each flow.
    fn tell_slot(&self, rt: &impl Print, slot: Slot) -> io::Result<()> {
        for i in 0..self.parts.flows {
            print!(rt; "SLOT {} FLOW {}", slot.0, self.parts.flow(i).id)?;
            self.print_told(rt, why(self.book, &self.area, i))?;
        }
        Ok(())
    }

    // Slot by slot.
    fn tell(mut self, rt: &impl Print, slots: u32) -> Result<(), Stop> {
        let mut grants = [0u8; Flow::MOST * Grant::BYTES];
        for slot in 0..slots {
            self.tell_slot(rt, Slot(slot))?;
            advance(self.book, &mut self.area, &mut grants)?;
        }
        Ok(())
    }
}

// A book is refused as a whole, before anything else is printed.
fn tell_book(rt: &impl Print, book: &[u8], slots: u32) -> Result<(), Stop> {
    let course = Course::start(book)?;
    print_book(rt, course.parts.nodes, course.parts.flows)?;
    course.tell(rt, slots)
}

pub(crate) fn tell(rt: &impl Print, book: &[u8], slots: u32) -> io::Result<()> {
    print_end(rt, tell_book(rt, book, slots))
}
