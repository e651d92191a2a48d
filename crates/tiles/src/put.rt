// Packed tiles, written a byte each.
ghost use Rattle.std.specs.Prelude.{◌≡◌, ◌++◌, ◌+◌, ◌*◌, ◌/◌, ◌%◌, ◌≤◌, length, drop};
ghost use Rattle.tiles.specs.Part.{tiles_from};
ghost use Rattle.tiles.specs.Put.{spread_of, Puts};
ghost use Rattle.level.specs.Sizes.{tiles_most};

use super::group::cell;

// The eight tiles of three bytes, a byte each, the first lowest.
fn spread(x: u8, y: u8, z: u8) -> u64
    ensures { result ≡ spread_of 4 (x * 65536 + y * 256 + z) 0 }
{
    spreads::spread(0, x) + spreads::spread(1, y) + spreads::spread(2, z)
}

// Eight bytes, the lowest first.
fn put_word(out: &mut [u8], k: usize, w: u64)
    requires { k + 8 ≤ length out.old }
    ensures { Puts out.old out.new k (k + 8) w }
{
    out[k..k + 8].copy_from_slice(&w.to_le_bytes());
}

// The bytes that there is room for before m.
pub fn put_rest(out: &mut [u8], k: usize, m: usize, w: u64)
    requires { (k ≤ m) × (m ≤ length out.old) }
    ensures { Puts out.old out.new k m w }
{
    let mut u = w;
    for i in k..m {
        out[i] = (u % 256) as u8;
        u /= 256;
    }
}

// The first m tiles of a record's part from byte 3; what is past them keeps its value.
pub fn unpack(part: &[u8], m: usize, tiles: &mut [u8])
    requires { (m ≤ tiles_most) × (3 * m ≤ 8 * length part.now) × (m ≤ length tiles.old) }
    ensures { tiles.new ≡ tiles_from part.now m ++ drop m tiles.old }
{
    let n = m / 8;
    for g in 0..n {
        put_word(
            tiles,
            8 * g,
            spread(part[3 * g], part[3 * g + 1], part[3 * g + 2]),
        );
    }
    if 8 * n == m {
        return;
    }
    put_rest(
        tiles,
        8 * n,
        m,
        spread(
            cell(part, 3 * n),
            cell(part, 3 * n + 1),
            cell(part, 3 * n + 2),
        ),
    );
}
