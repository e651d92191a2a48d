// What to add at listed cells of a word, from its syndrome.
#![tactic(auto)]

ghost use Rattle.std.specs.Prelude.{◌<◌, ◌≤◌, take};
ghost use Rattle.account.specs.Errata.{Below, Distinct};
ghost use Rattle.values.specs.OneProof.{Below-prop, Distinct-prop};
ghost use Rattle.values.specs.Values.{Sieved, Divided, Solved, Unweighed, Valued};

// Cells of a word of n: at most five, no two alike. An array and its count, since nothing may be allocated.
#[derive(Clone, Copy)]
pub struct Listing {
    pub n: usize,
    pub count: usize,
    pub cells: [usize; 5],
    ghost short: { n ≤ 255 },
    ghost few: { count ≤ 5 },
    ghost below: { Below (take count cells) n } by { Below-prop (take count cells) n },
    ghost distinct: { Distinct (take count cells) } by { Distinct-prop (take count cells) },
}

// At most five cells, each with what to add there. Two arrays and their count: nothing may be allocated, and pairs would take twice the
// stack.
#[derive(Clone, Copy)]
pub struct Errata {
    pub count: usize,
    pub cells: [usize; 5],
    pub values: [u8; 5],
}

// The sums v[i ..], the place x filtered out of all but the first.
fn sieve(x: u8, i: usize, k: usize, v: &mut [u8; 5])
    requires { (i < k) × (k ≤ 5) }
    ensures { Sieved x i k v.old v.new }
{
    for m in (i + 1..k).rev() {
        v[m] ^= gf256::product(x, v[m - 1]);
    }
}

// The values v after cell i, each divided by what its place and that of cell i differ by; at i what is left of s0.
fn divide(at: &Listing, i: usize, s0: u8, v: &mut [u8; 5])
    requires { i < at.now.count }
    ensures { Divided at.now.n at.now.cells i at.now.count v.old s0 v.new }
{
    let x = gf256::place(at.n, at.cells[i]);
    let mut sum = s0;
    for j in i + 1..at.count {
        let y = gf256::place(at.n, at.cells[j]);
        let u = gf256::quotient(v[j], y ^ x);
        v[j] = u;
        sum ^= u;
    }
    v[i] = sum;
}

// The sums v[i ..] become the values at the cells from i on that give them: cell i is filtered out, the others are solved, and
// divided again. A single sum is the value.
fn solve(at: &Listing, i: usize, v: &mut [u8; 5])
    requires { i ≤ at.now.count }
    ensures { Solved at.now.n at.now.cells i at.now.count v.old v.new }
{
    if at.count <= i + 1 {
        return;
    }
    let x = gf256::place(at.n, at.cells[i]);
    let s0 = v[i];
    sieve(x, i, at.count, v);
    solve(at, i + 1, v);
    divide(at, i, s0, v);
}

// Each value times the square of its place: S_-2 weighs a cell by the inverse of that.
fn unweigh(at: &Listing, v: &mut [u8; 5])
    ensures { Unweighed at.now.n at.now.cells at.now.count v.old v.new }
{
    for j in 0..at.count {
        let x = gf256::place(at.n, at.cells[j]);
        v[j] = gf256::product(v[j], gf256::product(x, x));
    }
}

// The errata at the listed cells of a word whose syndrome is s.
pub fn valued(s: [u8; 5], at: &Listing) -> Errata
    ensures { Valued at.now.n at.now.cells at.now.count s result }
{
    let mut values = s;
    solve(at, 0, &mut values);
    unweigh(at, &mut values);
    Errata {
        count: at.count,
        cells: at.cells,
        values,
    }
}
