// The response bounds of the flows of a book or a table, and the check of a book.
#![tactic(auto)]

pub mod acceptance;
pub mod bounds;
mod carried;
mod costs;
pub mod kept;
mod rising;
mod worked;
