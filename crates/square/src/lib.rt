// The figures that a table carries: 32 lines of 32, kept, tested, and carried over a change.
#![tactic(auto)]

pub mod carried;
pub mod kept;
