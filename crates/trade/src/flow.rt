// Flows, and the plans that they follow.

// A flow as its record in a book has it: its id, the slot of its first release, its period, its deadline and the length of its plan.
#[derive(Clone, Copy, Debug, PartialEq, Eq)]
pub struct Flow {
    pub id: u16,
    pub phase: u16,
    pub period: u16,
    pub deadline: u16,
    pub len: u16,
}

impl Flow {
    // A table has 0 to this many flows.
    pub const MOST: usize = 32;
    // An id is 1 to this.
    pub const MOST_ID: u16 = 65_535;
    // A phase is 0 to this many slots.
    pub const MOST_PHASE: u16 = 60_000;
    // A period is 1 to this many slots; a deadline is 1 to the period.
    pub const MOST_PERIOD: u16 = 60_000;
    // A flow's record in a book.
    pub const RECORD_BYTES: usize = 10;
}

// The steps of a flow, each a transmission.
#[derive(Clone, Copy)]
pub struct Plan;

impl Plan {
    // A plan has 1 to this many steps.
    pub const MOST: usize = 32;
    // A step in a book: its sender and its receiver.
    pub const STEP_BYTES: usize = 2;
}
