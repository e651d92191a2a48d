// Levels typed as text. The entries are total: they ask nothing of their caller, and refuse by FORMAT 9.
#![tactic(auto)]

pub mod read; // the level of a text
pub mod write; // the text of a level
