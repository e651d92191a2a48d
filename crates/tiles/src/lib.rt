// Tiles: what they add, and those of a record's part from byte 3, three bits each, counted and written with no board between.
#![tactic(auto)]

pub mod tile; // the table of rows
pub mod group; // bytes as numbers
pub mod count; // what they add
pub mod put; // the tiles, a byte each
