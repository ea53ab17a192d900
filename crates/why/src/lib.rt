// Why a flow is silent in the slot that a run is about to run, or is not.
#![tactic(auto)]

pub mod told;
