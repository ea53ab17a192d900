// The columns of a plan: for each node the steps of the plan that conflict with what it sends or receives.
#![tactic(auto)]

pub mod columns;
