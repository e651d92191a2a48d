// The tiles of a board, a byte each.
#![tactic(auto)]

pub mod board; // what they add
pub mod pack; // packed
