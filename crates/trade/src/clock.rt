// The three counters. Each is a type of its own, so that one in another's position stops the build.

// A slot, counted from 0.
#[derive(Clone, Copy, Debug, PartialEq, Eq, PartialOrd, Ord)]
pub struct Slot(pub u32);

// An instance of a flow, counted from 0.
#[derive(Clone, Copy, Debug, PartialEq, Eq, PartialOrd, Ord)]
pub struct Instance(pub u32);

// A step of a plan, counted from 0, or a count of steps done.
#[derive(Clone, Copy, Debug, PartialEq, Eq, PartialOrd, Ord)]
pub struct Step(pub u8);

// The slot clock.
#[derive(Clone, Copy)]
pub struct Clock;

impl Clock {
    // The last slot that runs.
    pub const LAST: u32 = 3_999_999_999;
    // The slot past it, at which a run has ended.
    pub const END: u32 = Clock::LAST + 1;
}
