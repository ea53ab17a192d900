// What each word does.
use crate::books::{A, A_BYTES, B, B_BYTES, largest};
use crate::desk::Desk;
use crate::orders::{Order, Word};
use crate::said::{say_bounds, say_bytes};
use listing::listed::list;
use std::io;
use trade::{Flow, Node, Plan};

const ROWS: usize = Node::MOST * Node::ROW_BYTES;

const RECORDS: usize = Flow::MOST * Flow::RECORD_BYTES;

const STEPS: usize = Flow::MOST * Plan::MOST * Plan::STEP_BYTES;

impl Desk {
    // The book is read from a copy of the room, since a call may change the room.
    pub(crate) fn obey(&mut self, rt: &impl Print, order: Order) -> io::Result<()> {
        let room = self.room;
        let book = room.get(self.from..).unwrap_or(&room);
        let [n, at, ..] = order.numbers;
        let byte = (n & 0xff) as u8;
        match order.word {
            Word::Put => self.put(at, byte),
            Word::LayA => self.lay(A, A_BYTES),
            Word::LayB => self.lay(B, B_BYTES),
            Word::Keep => self.keep(n),
            Word::Read => self.read(book),
            Word::Nodes => self.table.nodes = byte,
            Word::Flows => self.table.flows = byte,
            Word::Row => self.table.rows[at % ROWS] = byte,
            Word::Record => self.table.records[at % RECORDS] = byte,
            Word::Step => self.table.steps[at % STEPS] = byte,
            Word::Add => self.add(order.numbers),
            Word::Largest => self.table = largest(),
            Word::Remove => self.remove(n),
            Word::Write => self.write(n),
            Word::Compare => self.compare(book),
            Word::Check => self.check(book),
            Word::Start => self.start(book, n),
            Word::Advance => self.advance(book, at, n),
            Word::Area => self.done(at, byte),
            Word::Say => println!(rt; " {}", self.answer)?,
            Word::Bounds => say_bounds(rt, book)?,
            Word::View => say_bytes(rt, &self.area, n)?,
            Word::List => list(rt, book)?,
        }
        Ok(())
    }
}
