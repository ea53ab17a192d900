// The desk on which a case is tried, and what is done there, in small steps.
use crate::books::{B_BYTES, Base, PLAN, ROOM};
use bounds::acceptance::check;
use changes::change::{Changed, add, remove};
use run::advance::advance;
use run::start::start;
use table::table::{Got, Table, read};
use table::written::write;
use trade::{Answer, Flow, Grant, Run};

// Room for a run area with bytes behind it, and for the grants of two flows.
const AREA: usize = Run::AREA_BYTES + 2;

const GRANTS: usize = 2 * Grant::BYTES;

#[derive(Drop)]
pub(crate) struct Desk {
    // The book stands at the end of the room, from a place on. It is no Vec: the place can move back, to bytes that were in front.
    pub room: [u8; ROOM],
    pub from: usize,
    pub table: Table,
    pub area: [u8; AREA],
    // What the last call answered.
    pub answer: Answer,
}

// The last bytes, or all.
fn last(s: &mut [u8], n: usize) -> &mut [u8] {
    let from = s.len().saturating_sub(n);
    &mut s[from..]
}

// What two bytes hold of a number.
fn word(n: usize) -> u16 {
    (n & 0xffff) as u16
}

// How many bytes agree, from the front on.
fn agreeing(book: &[u8], written: &[u8]) -> usize {
    book.iter().zip(written).take_while(|(a, b)| a == b).count()
}

impl Desk {
    pub(crate) fn new() -> Self {
        Desk {
            room: [0xff; ROOM],
            from: ROOM,
            table: Table::empty(),
            area: [0xff; AREA],
            answer: Answer::done(0),
        }
    }

    pub(crate) fn lay(&mut self, base: Base, len: usize) {
        self.room[ROOM - B_BYTES..].copy_from_slice(&base);
        self.keep(len);
    }

    pub(crate) fn keep(&mut self, n: usize) {
        self.from = ROOM - n % (ROOM + 1);
    }

    pub(crate) fn put(&mut self, at: usize, n: u8) {
        self.room[(self.from % ROOM + at % ROOM) % ROOM] = n;
    }

    pub(crate) fn read(&mut self, book: &[u8]) {
        let Got { answer, table } = read(book);
        self.answer = answer;
        self.table = table;
    }

    pub(crate) fn write(&mut self, n: usize) {
        self.answer = write(self.table, last(&mut self.room, n)).into();
        self.keep(n);
    }

    // A table that is not written leaves zeros, which are compared then.
    pub(crate) fn compare(&mut self, book: &[u8]) {
        let mut written = [0u8; ROOM];
        let _ = write(self.table, &mut written);
        self.answer = Answer::done(agreeing(book, &written) as u64);
    }

    fn change(&mut self, changed: Changed) {
        self.answer = changed.answer;
        self.table = changed.table;
    }

    // A flow added, by the numbers of the word, from the last one back.
    pub(crate) fn add(&mut self, numbers: [usize; 6]) {
        let [n, len, deadline, period, id, place] = numbers;
        let mut plan = PLAN;
        plan[0] = (n & 0xff) as u8;
        let flow = Flow {
            id: word(id),
            phase: 0,
            period: word(period),
            deadline: word(deadline),
            len: word(len),
        };
        self.change(add(self.table, place, flow, plan));
    }

    pub(crate) fn remove(&mut self, place: usize) {
        self.change(remove(self.table, place));
    }

    pub(crate) fn check(&mut self, book: &[u8]) {
        self.answer = check(book).answer;
    }

    pub(crate) fn start(&mut self, book: &[u8], n: usize) {
        self.answer = start(book, last(&mut self.area, n)).into();
    }

    pub(crate) fn advance(&mut self, book: &[u8], n: usize, k: usize) {
        let mut grants = [0u8; GRANTS];
        self.answer = advance(book, last(&mut self.area, n), last(&mut grants, k)).into();
    }

    pub(crate) fn done(&mut self, at: usize, n: u8) {
        self.area[(AREA - Run::AREA_BYTES + at % AREA) % AREA] = n;
    }
}
