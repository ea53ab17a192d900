// Numbers in the bytes of a slice, and bytes put into a buffer.
#![tactic(auto)]

pub mod numbers;
pub mod pasting;
