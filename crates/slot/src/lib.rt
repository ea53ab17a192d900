// One slot: releases, which flows go, and their grants.
#![tactic(auto)]

pub mod choice;
pub mod granting;
pub mod release;
pub mod writer;
