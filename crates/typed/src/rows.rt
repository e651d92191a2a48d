// The rows of a text: seen once for their number and the longest, and laid out once that is known.
ghost use Rattle.std.specs.Prelude.{◌≡◌, ◌+◌, ◌≤◌, ◌<◌, length};
ghost use Rattle.typed.specs.Letters.{tile_of};
ghost use Rattle.typed.specs.Parts.{seen_next, SeenAs, Layable, LaidOut, PlacedAs};

// What was seen: bytes that are no letters, rows ended, letters since, the longest row that ended.
#[derive(Clone, Copy)]
pub struct Seen {
    pub foreign: usize,
    pub rows: usize,
    pub column: usize,
    pub longest: usize,
}

// One byte more.
fn step(s: Seen, c: u8) -> Seen
    requires { (s.foreign < 9223372036854775808) × (s.rows < 9223372036854775808) × (s.column < 9223372036854775808) }
    ensures { result ≡ seen_next s c }
{
    if c == b'\n' {
        return Seen {
            foreign: s.foreign,
            rows: s.rows + 1,
            column: 0,
            longest: s.longest.max(s.column),
        };
    }
    Seen {
        foreign: s.foreign + usize::from(!super::letters::is_letter(c)),
        rows: s.rows,
        column: s.column + 1,
        longest: s.longest,
    }
}

// All bytes after the first line.
pub fn see(body: &[u8]) -> Seen
    ensures { SeenAs body.now result }
{
    let mut s = Seen {
        foreign: 0,
        rows: 0,
        column: 0,
        longest: 0,
    };
    for c in body {
        s = step(s, *c);
    }
    s
}

// Where a tile goes: the tiles of the rows before, and those of this row.
#[derive(Clone, Copy)]
pub struct Spot {
    pub base: usize,
    pub column: usize,
}

// One byte placed in rows of width w.
fn place(at: Spot, c: u8, w: usize, board: &mut [u8]) -> Spot
    requires { (at.base + at.column + w < 9223372036854775808) × ((c ≡ 10 → ⊥) → (tile_of c ≤ 6) × (at.base + at.column < length board.old)) }
    ensures { PlacedAs c w at board.old board.new result }
{
    if c == b'\n' {
        return Spot {
            base: at.base + w,
            column: 0,
        };
    }
    board[at.base + at.column] = super::letters::tile_of(c);
    Spot {
        base: at.base,
        column: at.column + 1,
    }
}

// The tiles of all rows, in front of a board that is floor: so that short rows are filled.
pub fn put(body: &[u8], w: usize, board: &mut [u8])
    requires { Layable body.now w board.old }
    ensures { LaidOut body.now w board.new }
{
    let mut at = Spot { base: 0, column: 0 };
    for c in body {
        at = place(at, *c, w, board);
    }
}
