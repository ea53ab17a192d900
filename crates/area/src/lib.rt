// The run area, what is due in its slot, and the rules that refuse it: codes 10, 12 and 11.
#![tactic(auto)]

pub mod area;
pub mod due;
pub mod refusals;
