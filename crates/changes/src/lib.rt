// Changes of a table: a flow added at a place, or removed.
#![tactic(auto)]

pub mod change;
mod entering;
mod handed;
mod leaving;
