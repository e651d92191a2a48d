// What the tiles of a board add, from a byte each.
ghost use Rattle.std.specs.Prelude.{◌≡◌, ◌+◌, ◌*◌, ◌≤◌, length, get_or};
ghost use Rattle.account.specs.Lists.{sum_of};
ghost use Rattle.level.specs.Sizes.{tiles_most};
ghost use Rattle.tiles.specs.Sum.{weighed, weight};
ghost use Rattle.boards.specs.Codes.{same};

use tiles::tile::weigh;

// How many of the 64 tiles from k on have code c. A sum of bytes over a fixed number of them becomes vector code.
fn count(tiles: &[u8], k: usize, c: u8) -> u8
    requires { k + 64 ≤ length tiles.now }
    ensures { result ≡ sum_of 64 (λ i. same c (get_or tiles.now (k + i) 0)) }
{
    let mut n = 0;
    for i in 0..64 {
        n += u8::from(tiles[k + i] == c);
    }
    n
}

// What the 64 tiles from k on add: for each code its row as often as it is there, and the last row for the others.
fn block(tiles: &[u8], k: usize) -> u64
    requires { k + 64 ≤ length tiles.now }
    ensures { result ≡ sum_of 64 (λ i. weighed (get_or tiles.now (k + i) 0)) }
{
    let mut x = 0;
    let mut others = 64;
    for c in 0..8 {
        let n = u64::from(count(tiles, k, c));
        x += weigh(c) * n;
        others -= n;
    }
    x + weigh(8) * others
}

// What tiles add, one after the other.
fn rest(tiles: &[u8]) -> u64
    requires { length tiles.now ≤ tiles_most }
    ensures { (result ≡ weight tiles.now) × (result ≤ 1125899906842624 * tiles_most) }
{
    let mut x = 0;
    for t in tiles {
        x += weigh(*t);
    }
    x
}

// What the tiles of a board add, in all.
pub fn tally(tiles: &[u8]) -> u64
    requires { length tiles.now ≤ tiles_most }
    ensures { result ≡ weight tiles.now }
{
    let n = tiles.len() / 64;
    let mut x = 0;
    for g in 0..n {
        x += block(tiles, 64 * g);
    }
    x + rest(&tiles[64 * n..])
}
