// The errata of a word: at most five cells, each with what to add there, from the word's syndrome and its marked cells, which
// are listed.
#![tactic(auto)]

ghost use Rattle.std.specs.Prelude.{[], ◌∷◌, ◌≤◌};
ghost use Rattle.errata.specs.Errata.{Listed, NotNone, NotOne, listed_in, GuessedAs, Bytes5, CoupleOf, Valued, FoundUnmarked, FoundWith};

use locate::Pair;
use values::{Errata, Listing};

// The marked cells and after them those that are wrong, where t are the sums that are left: at first, none.
fn guess(t: [u8; 5], marked: &Listing) -> Option<Listing>
    ensures { GuessedAs marked.now t result }
{
    let left = 5 - marked.count;
    if locate::zeros(t, left) {
        return Some(*marked);
    }
    if left < 2 {
        return None;
    }
    guess_one(t, marked)
}

// Some are wrong, and one may be: it, or two.
fn guess_one(t: [u8; 5], marked: &Listing) -> Option<Listing>
    requires { (marked.now.count ≤ 3) × NotNone t marked.now.count }
    ensures { GuessedAs marked.now t result }
{
    let f = marked.count;
    if let Some(p) = locate::one(t, 4 - f, marked.n, &marked.cells[..f]) {
        let mut cells = marked.cells;
        cells[f] = p;
        return Some(Listing {
            n: marked.n,
            count: f + 1,
            cells,
        });
    }
    if 1 < f {
        return None;
    }
    guess_two(t, marked)
}

// One is not enough, and two may be wrong: those.
fn guess_two(t: [u8; 5], marked: &Listing) -> Option<Listing>
    requires { (marked.now.count ≤ 1) × NotNone t marked.now.count × NotOne marked.now.n (listed_in marked.now) t marked.now.count }
    ensures { GuessedAs marked.now t result }
{
    let f = marked.count;
    let Pair { p, q } = locate::two(t, 3 - f, marked.n, &marked.cells[..f])?;
    let mut cells = marked.cells;
    cells[f] = p;
    cells[f + 1] = q;
    Some(Listing {
        n: marked.n,
        count: f + 2,
        cells,
    })
}

// The errata at two wrong cells of a word with no marks, from the two sums that weigh a cell by 1 and by its place.
fn couple(s: [u8; 5], n: usize, pair: Pair) -> Errata
    requires { (n ≤ 255) × CoupleOf s n pair }
    ensures { Valued n (pair.p ∷ pair.q ∷ 0 ∷ 0 ∷ 0 ∷ []) 2 s result }
{
    let Pair { p, q } = pair;
    let x = gf256::place(n, p);
    let y = gf256::place(n, q);
    let v = gf256::quotient(s[3] ^ gf256::product(y, s[2]), x ^ y);
    Errata {
        count: 2,
        cells: [p, q, 0, 0, 0],
        values: [v, s[2] ^ v, 0, 0, 0],
    }
}

// A word with no marks: none, one or two wrong cells. The value of one is S_0, which weighs every cell by 1.
fn unmarked(s: [u8; 5], n: usize) -> Option<Errata>
    requires { n ≤ 255 }
    ensures { FoundUnmarked s n result }
{
    if locate::zeros(s, 5) {
        return Some(Errata {
            count: 0,
            cells: [0; 5],
            values: [0; 5],
        });
    }
    if let Some(p) = locate::alone(s, n) {
        return Some(Errata {
            count: 1,
            cells: [p, 0, 0, 0, 0],
            values: [s[2], 0, 0, 0, 0],
        });
    }
    let pair = locate::two(s, 3, n, &[])?;
    Some(couple(s, n, pair))
}

// A word with the syndrome s and marked cells: beside these, none, one or two wrong ones.
fn beside(s: [u8; 5], marked: &Listing) -> Option<Errata>
    ensures { FoundWith s marked.now.n marked.now.cells marked.now.count result }
{
    let t = locate::drain(s, &marked.cells[..marked.count], marked.n);
    let all = guess(t, marked)?;
    Some(values::valued(s, &all))
}

// The errata of a word of n cells with the syndrome s, of which the first f of `erased` are the marked ones. Beside five nothing
// is left to search. The sums are read one by one, as they were written: read as one they would wait for all to be stored.
pub fn find(s: [u8; 5], n: usize, erased: [usize; 5], f: usize) -> Option<Errata>
    requires { Listed n erased f × Bytes5 s }
    ensures { FoundWith s n erased f result }
{
    let t = [s[0], s[1], s[2], s[3], s[4]];
    if f == 0 {
        return unmarked(t, n);
    }
    let marked = Listing {
        n,
        count: f,
        cells: erased,
    };
    if f == 5 {
        return Some(values::valued(t, &marked));
    }
    beside(t, &marked)
}
