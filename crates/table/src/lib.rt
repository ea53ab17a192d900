// The table in memory: reading a book into it, checking it, and writing it as a book.
#![tactic(auto)]

pub mod checked;
pub mod table;
pub mod written;
