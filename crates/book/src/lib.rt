// Flow books on a lent slice: the trailer, codes 1 to 8, and the sections of a book that passes.
#![tactic(auto)]

pub mod parts;
