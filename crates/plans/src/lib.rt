// Plans on lent steps: a step read where it lies, the part that holds a plan, the view of it, and a plan without its repeats.
#![tactic(auto)]

pub mod single;
pub mod steps;
pub mod view;
