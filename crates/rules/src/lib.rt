// The rules of a change of a table: on the old table, on where a flow comes in or which goes, and on the new table.
#![tactic(auto)]

pub mod rules;
