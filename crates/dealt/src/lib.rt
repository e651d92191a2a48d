// Cells dealt to the lanes of a strip: the remainders of all lanes at once, the errata of each, and their check cells. With R lanes cell p is
// byte p div R of lane p mod R.
#![tactic(auto)]

ghost use Rattle.std.specs.Prelude.{◌≡◌, ◌+◌, ◌*◌, ◌≤◌, ◌<◌, length, get_or};
ghost use Rattle.account.specs.Lanes.{lane};
ghost use Rattle.gf256.specs.Gf256.{gf256};
ghost use Rattle.rules.specs.Placed.{Placed};
ghost use Rattle.rules.specs.Refusal.{Within};
ghost use Rattle.remainder.specs.Remainder.{unpacked};
ghost use Rattle.errata.specs.Errata.{Listed};
ghost use Rattle.code.specs.Word.{data_most};
ghost use Rattle.code.specs.Lane.{word_of};
ghost use Rattle.dealt.specs.Lanes.{Remaindered, ChecksPut, LaneOf, check_cell, SearchedBy};

use code::lane::{LANE_MOST, Lane};
pub use remainder::LANES;
use values::Errata;

// The remainders of the lanes: zero just where a lane is clean, and what its errata are found from.
pub fn remainders(strip: &[u8], lanes: usize) -> [u64; LANES]
    requires { Within 1 16 lanes }
    ensures { Remaindered lanes strip.now result }
{
    remainder::remainders(strip, lanes)
}

// Lane l of a strip, by value.
pub fn gather(strip: &[u8], lanes: usize, l: usize, n: usize) -> Lane
    requires { LaneOf lanes l n strip.now × (lanes ≤ 16) }
    ensures { (result.len ≡ n) × (word_of result ≡ lane lanes l strip.now) }
{
    let mut t = Lane {
        bytes: [0; LANE_MOST],
        len: n,
    };
    for k in 0..n {
        t.bytes[k] = strip[lanes * k + l];
    }
    t
}

// The errata of a lane of n cells with the remainder r, of which the first f of `erased` are the marked cells.
pub fn search(n: usize, r: u64, erased: [usize; 5], f: usize) -> Option<Errata>
    requires { Listed n erased f }
    ensures { SearchedBy r n erased f result }
{
    errata::find(remainder::syndrome_of(r), n, erased, f)
}

// Check byte i of the five that are packed in c.
fn check_byte(c: u64, i: usize) -> u8
    requires { i < 5 }
    ensures { result ≡ get_or (unpacked c) i 0 }
{
    remainder::low(c >> (32 - 8 * i))
}

// Check byte i of each lane, as a column of cells: the i-th after k columns.
fn place_column(x: &mut [u8], lanes: usize, k: usize, c: &[u64; LANES], i: usize)
    requires { Within 1 16 lanes × (k ≤ data_most) × (i < 5) × (lanes * (k + 5) ≤ length x.old) }
    ensures { Placed (lanes * (k + i)) (lanes * (k + i + 1)) (check_cell lanes k c.now) x.old x.new }
{
    let from = lanes * (k + i);
    for j in 0..lanes {
        x[from + j] = check_byte(c[j], i);
    }
}

// The packed check bytes of the lanes of k cells, as five columns after them.
fn place_checks(x: &mut [u8], lanes: usize, k: usize, c: &[u64; LANES])
    requires { Within 1 16 lanes × (k ≤ data_most) × (lanes * (k + 5) ≤ length x.old) }
    ensures { Placed (lanes * k) (lanes * (k + 5)) (check_cell lanes k c.now) x.old x.new }
{
    for i in 0..5 {
        place_column(x, lanes, k, c, i);
    }
}

// The check cells of lanes of k data cells, which stand in front.
pub fn put_checks(x: &mut [u8], lanes: usize, k: usize)
    requires { Within 1 16 lanes × (k ≤ data_most) × (lanes * (k + 5) ≤ length x.old) }
    ensures { ChecksPut gf256 lanes k x.old x.new }
{
    let c = remainder::lane_checks_of(&x[..lanes * k], lanes);
    place_checks(x, lanes, k, &c);
}
