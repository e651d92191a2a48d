// Records: a level, bit-packed. The entries are total: they ask nothing of their caller, and refuse by FORMAT 9.
#![tactic(auto)]

pub mod write; // the record of a level
pub mod read; // the level of a record
