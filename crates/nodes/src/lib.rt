// Nodes: sets of them as numbers, who disturbs whom, what conflicts, and the grants of a slot as a set that grows.
#![tactic(auto)]

pub mod conflict;
pub mod grants;
pub mod mask;
