// The remainder of a word by the generator, and what is made of it: the test, the check bytes, and the five sums, which are those
// of the remainder. Five bytes are packed in one number, the highest power on top. One pass serves a word and the lanes of a strip,
// whose chains of steps need not wait for each other.
#![tactic(auto)]

ghost use Rattle.std.specs.Prelude.{◌≡◌, ◌+◌, ◌*◌, ◌/◌, ◌%◌, ◌<◌, ◌≤◌, min, length};
ghost use Rattle.account.specs.Code.{syndrome};
ghost use Rattle.gf256.specs.Gf256.{gf256};
ghost use Rattle.remainder.specs.Remainder.{packed_end, Remains, Checks, LanesTo, LanesRemain, LanesCheck, five_at, FewOf, Room, Moved, RowTo, RowMoved, RowsMoved, unpacked};

// Room for the numbers of sixteen lanes.
pub const LANES: usize = 16;

// The lowest byte.
pub fn low(x: u64) -> u8
    ensures { result ≡ x % 256 }
{
    (x % 256) as u8
}

// The five packed bytes, the highest power first.
pub fn bytes(x: u64) -> [u8; 5]
    ensures { result ≡ unpacked x }
{
    [
        low(x / 4294967296),
        low(x / 16777216),
        low(x / 65536),
        low(x / 256),
        low(x),
    ]
}

// Five cells more of a lane: those at p, p + lanes and so on. The five bytes are spelled out and no loop is made of them, since this is timed.
fn step(s: &[u8], lanes: usize, p: usize, r: u64) -> u64
    requires { (r < packed_end) × (lanes ≤ 16) × (p + 4 * lanes < length s.now) }
    ensures { Moved r (five_at lanes s.now p) result }
{
    let five = u64::from(s[p]) * 4294967296
        + u64::from(s[p + lanes]) * 16777216
        + u64::from(s[p + 2 * lanes]) * 65536
        + u64::from(s[p + 3 * lanes]) * 256
        + u64::from(s[p + 4 * lanes]);
    let a = reductions::at(0, low(r)) ^ reductions::at(1, low(r / 256));
    let b = reductions::at(2, low(r / 65536)) ^ reductions::at(3, low(r / 16777216));
    five ^ ((a ^ b) ^ reductions::at(4, low(r / 4294967296)))
}

// Five cells more of each lane from lane j on, of four at most. The loop has no more turns than that, whatever the lanes, and so the compiler
// writes it out.
fn group(s: &[u8], lanes: usize, q: usize, j: usize, out: &mut [u64; LANES])
    requires { Room lanes out.old × (q + 5 * lanes ≤ length s.now) × (j ≤ lanes) }
    ensures { RowTo lanes s.now q j out.old out.new (min (j + 4) lanes) }
{
    for i in 0..4 {
        let l = j + i;
        if lanes <= l {
            return;
        }
        out[l] = step(s, lanes, q + l, out[l]);
    }
}

// Five cells more of each lane, from cell q on, four lanes at a time.
fn row(s: &[u8], lanes: usize, q: usize, out: &mut [u64; LANES])
    requires { Room lanes out.old × (q + 5 * lanes ≤ length s.now) }
    ensures { RowMoved lanes s.now q out.old out.new × (length out.new ≡ 16) }
{
    for j in (0..lanes).step_by(4) {
        group(s, lanes, q, j, out);
    }
}

// All cells of s more: rows of five of each lane.
fn rows(s: &[u8], lanes: usize, out: &mut [u64; LANES])
    requires { Room lanes out.old × (length s.now % (5 * lanes) ≡ 0) }
    ensures { RowsMoved lanes s.now out.old out.new × (length out.new ≡ 16) }
{
    for q in (0..s.len()).step_by(5 * lanes) {
        row(s, lanes, q, out);
    }
}

// The first h cells of lane j, fewer than five: packed, they are their own remainder.
fn few(s: &[u8], lanes: usize, j: usize, h: usize) -> u64
    requires { (j < lanes) × (h ≤ 4) × (lanes ≤ 16) × (h ≤ length s.now / lanes) }
    ensures { FewOf lanes j h s.now result }
{
    let mut x: u64 = 0;
    for i in 0..h {
        x = x * 256 + u64::from(s[lanes * i + j]);
    }
    x
}

// The same for each lane.
fn heads(s: &[u8], lanes: usize, h: usize, out: &mut [u64; LANES])
    requires { Room lanes out.old × (h ≤ 4) × (h ≤ length s.now / lanes) }
    ensures { LanesTo lanes h s.now out.new × (length out.new ≡ 16) }
{
    for j in 0..lanes {
        out[j] = few(s, lanes, j, h);
    }
}

// The remainders of the lanes of s. Cells after the last whole column count for nothing. The lane count stays a number with its clause, here and
// above: it is in every index and length, and a word is one lane.
pub fn remainders(s: &[u8], lanes: usize) -> [u64; LANES]
    requires { (1 ≤ lanes) × (lanes ≤ 16) }
    ensures { LanesRemain lanes s.now result }
{
    let n = s.len() / lanes;
    let h = n % 5;
    let mut out = [0u64; LANES];
    heads(s, lanes, h, &mut out);
    rows(&s[lanes * h..lanes * n], lanes, &mut out);
    out
}

// The check bytes after the lanes of data: the remainders of the data with five zeros after each lane.
pub fn lane_checks_of(data: &[u8], lanes: usize) -> [u64; LANES]
    requires { (1 ≤ lanes) × (lanes ≤ 16) }
    ensures { LanesCheck lanes «data».now result }
{
    let zeros = [0u8; 80];
    let mut out = remainders(data, lanes);
    rows(&zeros[..5 * lanes], lanes, &mut out);
    out
}

// The remainder of w.
pub fn remainder_of(w: &[u8]) -> u64
    ensures { Remains w.now result }
{
    remainders(w, 1)[0]
}

// The five check bytes after data.
pub fn checks_of(data: &[u8]) -> u64
    ensures { Checks «data».now result }
{
    lane_checks_of(data, 1)[0]
}

// The five sums of the packed bytes, packed too: those of each half byte, added.
fn sums(r: u64) -> u64
    ensures { unpacked result ≡ syndrome gf256 (unpacked r) }
{
    let mut x: u64 = 0;
    let mut rest = r;
    for k in 0..10 {
        x ^= reductions::sums_at(k, (rest % 16) as usize);
        rest /= 16;
    }
    x
}

// The syndrome of the five packed bytes, and so of every word whose remainder they are.
pub fn syndrome_of(r: u64) -> [u8; 5]
    ensures { result ≡ syndrome gf256 (unpacked r) }
{
    bytes(sums(r))
}
