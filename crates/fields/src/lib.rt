// What is asked of a record's bytes, part by part: of a record as it stands, and of one that is seen in pieces.
#![tactic(auto)]

pub mod head; // the fields in front of the tiles
pub mod shape; // length and filling
pub mod tile; // what tiles add
