// Runs of a book: started, and advanced by one slot at a time.
#![tactic(auto)]

pub mod advance;
pub mod start;
