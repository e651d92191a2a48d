// Strips: levels carried by coloured cells. The entries are total: they ask nothing of their caller, and refuse by FORMAT 9.
#![tactic(auto)]

pub mod write; // a level's strip
pub mod read; // the level within reach of a strip
