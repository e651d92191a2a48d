// Levels, records and strips are in specs/, with what is true of them in proofs/. Here are the newest version of specs/Level.antt, and the sizes that specs/Sizes.antt names.
#![tactic(auto)]

// The newest version of levels.
pub const NEWEST: usize = 2;
// Tiles of a board.
pub const TILES_MOST: usize = 961;
// Bytes of a record.
pub const RECORD_LEAST: usize = 4;

pub const RECORD_MOST: usize = 364;
// Cells of a strip.
pub const STRIP_MOST: usize = 448;
// What the strip reader is lent beside: one lane.
pub const SCRATCH_LEAST: usize = 187;

// A crate has at least one function.
fn level() {}
