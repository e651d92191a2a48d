// Wrong cells of a word, located by what is left of its syndrome when the marked cells are filtered out: one, by a ratio of sums; two, by a
// quadratic.
#![tactic(auto)]

ghost use Rattle.std.specs.Prelude.{◌≡◌, [], ◌∷◌, suc, ◌<◌, ◌≤◌};
ghost use Rattle.std.specs.Int.Bits.{bit_xor};
ghost use Rattle.account.specs.Errata.{Below, filt};
ghost use Rattle.account.specs.Search.{Zeros};
ghost use Rattle.gf256.specs.Gf256.{gf256};
ghost use Rattle.rules.specs.Says.{Says};
ghost use Rattle.values.specs.Values.{at};
ghost use Rattle.locate.specs.Places.{Filtered, Drained, CellAt, One, Two, Both, Split, Places, Ratio, Climbs, NoneAlone, NotNone};

// ---- the filter

// The sums s, with the place x filtered out.
fn filter(x: u8, s: [u8; 5]) -> [u8; 5]
    ensures { Filtered x s result }
{
    let a = s[1] ^ gf256::product(x, s[0]);
    let b = s[2] ^ gf256::product(x, s[1]);
    let c = s[3] ^ gf256::product(x, s[2]);
    let d = s[4] ^ gf256::product(x, s[3]);
    [a, b, c, d, 0]
}

// Whether the first k sums are zero.
pub fn zeros(s: [u8; 5], k: usize) -> bool
    requires { k ≤ 5 }
    ensures { Says result (Zeros k (at s)) }
{
    s[..k].iter().all(|sum| *sum == 0)
}

// The sums s, with the cells ps of a word of n filtered out.
pub fn drain(s: [u8; 5], ps: &[usize], n: usize) -> [u8; 5]
    requires { Below ps.now n × (n ≤ 255) }
    ensures { Drained n ps.now s result }
{
    let mut t = s;
    for p in ps {
        // in a variable of its own, since the check knows no call whose result is laid over the array that it was passed
        let u = filter(gf256::place(n, *p), t);
        t = u;
    }
    t
}

// ---- wrong cells, none of which is one of the marked cells ps

// The unmarked cell whose place is x.
fn cell(x: u8, n: usize, ps: &[usize]) -> Option<usize>
    requires { n ≤ 255 }
    ensures { CellAt x n ps.now result }
{
    if x == 0 {
        return None;
    }
    let i = gf256::log(x);
    if n <= i {
        return None;
    }
    let p = n - (i + 1);
    if ps.contains(&p) { None } else { Some(p) }
}

// The one cell that fits, by the ratio of two sums.
pub fn one(t: [u8; 5], k: usize, n: usize, ps: &[usize]) -> Option<usize>
    requires { (n ≤ 255) × (1 ≤ k) × (k ≤ 4) × (Zeros (suc k) (at t) → ⊥) }
    ensures { One t k n ps.now result }
{
    if t[0] == 0 {
        return None;
    }
    let x = gf256::quotient(t[1], t[0]);
    let p = cell(x, n, ps)?;
    if zeros(filter(x, t), k) {
        Some(p)
    } else {
        None
    }
}

// The power of α by which x becomes y.
fn ratio(x: u8, y: u8) -> usize
    requires { (0 < x) × (0 < y) }
    ensures { Ratio x y result }
{
    let a = gf256::log(y);
    let b = gf256::log(x);
    if a < b { a + 255 - b } else { a - b }
}

// Whether each sum is the one before times the power i of α.
fn climbs(s: [u8; 5], i: usize) -> bool
    requires { (0 < at s 0) × (i < 255) }
    ensures { Says result (Climbs s i) }
{
    for m in 0..4 {
        if s[m + 1] == 0 || ratio(s[m], s[m + 1]) != i {
            return false;
        }
    }
    true
}

// The one wrong cell of a word with no marks, by the logarithms of its sums, so that nothing is multiplied.
pub fn alone(s: [u8; 5], n: usize) -> Option<usize>
    requires { (n ≤ 255) × NotNone s 0 }
    ensures { One s 4 n [] result }
{
    if s[0] == 0 || s[1] == 0 {
        return None;
    }
    let e = ratio(s[0], s[1]);
    if n <= e {
        return None;
    }
    if climbs(s, e) {
        Some(n - (e + 1))
    } else {
        None
    }
}

#[derive(Clone, Copy)]
pub struct Pair {
    pub p: usize,
    pub q: usize,
}

// One of the two places whose sum is u and whose product is v: u z, where z z + z = v / (u u).
fn split(u: u8, v: u8) -> u8
    requires { 0 < u }
    ensures { Split u v result }
{
    let c = gf256::quotient(gf256::quotient(v, u), u);
    gf256::product(u, gf256::half(c))
}

// Whether the places x and y, whose sum is u, leave the first k sums nothing. Two of these follow from how u and v were made.
fn joins(t: [u8; 5], k: usize, x: u8, y: u8, u: u8, v: u8) -> bool
    requires { (2 ≤ k) × (k ≤ 3) × (bit_xor x y ≡ u) × Places t u v }
    ensures { Says result (Zeros k (filt gf256 (x ∷ y ∷ []) (at t))) }
{
    gf256::product(x, y) == v
        && (k < 3 || t[4] == gf256::product(u, t[3]) ^ gf256::product(v, t[2]))
}

// The cells of the places x and x + u, if they fit.
fn both(t: [u8; 5], k: usize, n: usize, ps: &[usize], x: u8, u: u8, v: u8) -> Option<Pair>
    requires { (n ≤ 255) × (2 ≤ k) × (k ≤ 3) × Places t u v }
    ensures { Both x (bit_xor x u) t k n ps.now result }
{
    let y = x ^ u;
    let p = cell(x, n, ps)?;
    let q = cell(y, n, ps)?;
    if joins(t, k, x, y, u, v) {
        Some(Pair { p, q })
    } else {
        None
    }
}

// The two cells that fit, by a quadratic. No cell fits alone.
pub fn two(t: [u8; 5], k: usize, n: usize, ps: &[usize]) -> Option<Pair>
    requires { (n ≤ 255) × (2 ≤ k) × (k ≤ 3) × NoneAlone t (suc k) n ps.now }
    ensures { Two t k n ps.now result }
{
    let det = gf256::product(t[1], t[1]) ^ gf256::product(t[0], t[2]);
    if det == 0 {
        return None;
    }
    let u = gf256::quotient(gf256::product(t[1], t[2]) ^ gf256::product(t[0], t[3]), det);
    if u == 0 {
        return None;
    }
    let v = gf256::quotient(gf256::product(t[2], t[2]) ^ gf256::product(t[1], t[3]), det);
    both(t, k, n, ps, split(u, v), u, v)
}
