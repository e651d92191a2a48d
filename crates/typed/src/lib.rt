// What a level typed as text is made of: letters, the first line, rows.
#![tactic(auto)]

pub mod letters; // a letter for each tile
pub mod line; // the first line of a par
pub mod head; // the par of a first line
pub mod rows; // rows seen and laid out
