// The interference figures of the flows of a formed book.
#![tactic(auto)]

mod figures;
pub mod heard;
mod lanes;
mod rises;
