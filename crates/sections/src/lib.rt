// The three sections that a book and a table both have: rows, records and steps; codes 5, 6 and 8, and, where they pass, the sections
// as one value (`Parts`).
#![tactic(auto)]

mod at_once;
pub mod parts;
pub mod records;
pub mod rows;
pub mod steps;
