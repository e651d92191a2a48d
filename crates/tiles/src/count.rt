// What packed tiles add, from their bytes.
ghost use Rattle.std.specs.Prelude.{◌≡◌, ◌+◌, ◌*◌, ◌/◌, ◌%◌, ◌≤◌, length};
ghost use Rattle.tiles.specs.Sum.{weighed, Counted, CountedFrom, pairs_of, triples_of};

use super::group::{last, word};
use triples::three;

// What the 24 tiles of nine bytes add, eight of them as one number and the last.
fn nine(v: u64, z: u8) -> u64
    ensures { (result ≡ triples_of weighed 8 (v * 256 + z)) × (result ≤ 27021597764222976) }
{
    let mut t = v % 2 * 256 + u64::from(z);
    let mut u = v / 2;
    let mut s = 0;
    for _n in 0..8usize {
        s += three((t % 512) as usize);
        t = u;
        u /= 512;
    }
    s
}

// What the eight tiles in the lowest 24 bits add: two, three and three.
fn eight(v: u64) -> u64
    ensures { (result ≡ pairs_of weighed 4 v) × (result ≤ 9007199254740992) }
{
    three((v / 262144 % 64) as usize) + three((v / 512 % 512) as usize) + three((v % 512) as usize)
}

// What the tiles from group g on add, eight at a time.
fn rest(part: &[u8], g: usize) -> u64
    requires { (length part.now ≤ 376) × (3 * g ≤ length part.now) }
    ensures { CountedFrom part.now g result }
{
    let mut x = 0;
    for h in g..part.len().div_ceil(3) {
        x += eight(last(part, h));
    }
    x
}

// What the tiles of a record's part from byte 3 add, in all; its filling is floor, which adds nothing.
pub fn tally(part: &[u8]) -> u64
    requires { length part.now ≤ 376 }
    ensures { Counted part.now result }
{
    let n = part.len() / 9;
    let mut x = 0;
    for k in 0..n {
        x += nine(word(part, 9 * k), part[9 * k + 8]);
    }
    x + rest(part, 3 * n)
}
