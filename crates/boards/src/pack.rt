// Tiles, a byte each, packed: three bits each from byte 3 of a record on.
ghost use Rattle.std.specs.Prelude.{◌≡◌, ◌+◌, ◌*◌, ◌/◌, ◌≤◌, ◌<◌, length};
ghost use Rattle.level.specs.Sizes.{tiles_most};
ghost use Rattle.boards.specs.Pack.{Codes, joined_at, turned_of, PackedIn};

use tiles::group::{cell, word};
use tiles::put::put_rest;

// Eight tiles as one number of 24 bits, the first highest: two are put together at each of four places, then four at two.
fn full(tiles: &[u8], g: usize) -> u64
    requires { (g ≤ 1000) × (8 * g + 8 ≤ length tiles.now) × Codes tiles.now }
    ensures { result ≡ joined_at tiles.now g }
{
    let w = word(tiles, 8 * g);
    let a = (w + w / 32) & 0x003F003F003F003F;
    let b = (a + a / 1024) & 0x00000FFF00000FFF;
    (b + b / 1048576) % 16777216
}

// The same, floor past the end.
fn last(tiles: &[u8], g: usize) -> u64
    requires { (g ≤ 1000) × Codes tiles.now }
    ensures { result ≡ joined_at tiles.now g }
{
    let mut v = 0;
    for j in 0..8 {
        v = v * 8 + u64::from(cell(tiles, 8 * g + j));
    }
    v
}

// The three bytes of a number, the highest now lowest.
fn turned(v: u64) -> u64
    requires { v < 16777216 }
    ensures { result ≡ turned_of v }
{
    v / 65536 + v / 256 % 256 * 256 + v % 256 * 65536
}

// The tiles in a record whose first bytes are a buffer's, from byte 3 on; the rest of the buffer keeps its value.
pub fn pack(tiles: &[u8], out: &mut [u8])
    requires { (length tiles.now ≤ tiles_most) × Codes tiles.now × (3 + (3 * length tiles.now + 7) / 8 ≤ length out.old) }
    ensures { PackedIn tiles.now out.old out.new }
{
    let n = tiles.len() / 8;
    for g in 0..n {
        put_rest(out, 3 + 3 * g, 6 + 3 * g, turned(full(tiles, g)));
    }
    put_rest(
        out,
        3 + 3 * n,
        3 + (3 * tiles.len() + 7) / 8,
        turned(last(tiles, n)),
    );
}
