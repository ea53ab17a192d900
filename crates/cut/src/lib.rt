// Bytes of a section moved in place: others put in among those in use and taken out again, and zeros behind them.
#![tactic(auto)]

pub mod cut;
