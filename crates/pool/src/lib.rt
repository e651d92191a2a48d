// Pooling: two pictures of one strip make one, cell by cell.
#![tactic(auto)]

ghost use Rattle.std.specs.Prelude.{◌≡◌, ℕ, ◌≤◌, length};
ghost use Rattle.account.specs.Reach.{one_if};
ghost use Rattle.rules.specs.Refusal.{First, code_of};
ghost use Rattle.level.specs.Sizes.{strip_most};
ghost use Rattle.pool.specs.Pooled.{photo, kind, byte, is, taken, conflict, both, pooling, PoolsAs, AsLong, PoursAs};

use rules::Refusal;

// The lanes of the strips that are pooled.
const LANES: usize = 4;

// How many cells are of each kind.
#[derive(Clone, Copy)]
pub struct Pooled {
    pub agreed: usize,
    pub taken: usize,
    pub conflict: usize,
    pub both: usize,
}

// Refusals 1, 13, 2, 3 and 4.
fn enter(
    first: &[u8],
    first_marks: &[u8],
    second: &[u8],
    second_marks: &[u8],
    cells: usize,
    marks: usize,
) -> Result<(), Refusal>
    ensures { First (pooling 4 (photo first.now first_marks.now) (photo second.now second_marks.now) cells marks) (code_of result) }
{
    let n = first.len();
    if !entry::legal(LANES, n) || !entry::legal(LANES, second.len()) {
        return Err(Refusal::Length);
    }
    if second.len() != n {
        return Err(Refusal::Unequal);
    }
    if first_marks.len() != n || second_marks.len() != n {
        return Err(Refusal::MarkCount);
    }
    if 1 < marks::any(first_marks) || 1 < marks::any(second_marks) {
        return Err(Refusal::Mark);
    }
    if cells != n || marks != n {
        return Err(Refusal::Buffer);
    }
    Ok(())
}

// What stands under a mark.
const UNKNOWN: u8 = 0;

// A cell with byte x and mark m in the first picture, y and n in the second: its byte when they are pooled.
fn byte_of(x: u8, m: u8, y: u8, n: u8) -> u8
    ensures { result ≡ byte x m y n }
{
    match (m != 0, n != 0) {
        (true, true) => UNKNOWN,
        (true, false) => y,
        (false, true) => x,
        (false, false) => if x == y { x } else { UNKNOWN },
    }
}

// 1 where it is taken from one, whatever its bytes.
fn one_taken(m: u8, n: u8) -> u16
    ensures { (x y : ℕ) → result ≡ one_if (is taken (kind x m y n)) }
{
    u16::from((m != 0) != (n != 0))
}

// 1 where it is in conflict.
fn one_conflict(x: u8, m: u8, y: u8, n: u8) -> u16
    ensures { result ≡ one_if (is conflict (kind x m y n)) }
{
    u16::from(m == 0 && n == 0 && x != y)
}

// 1 where it is marked in both.
fn one_both(m: u8, n: u8) -> u16
    ensures { (x y : ℕ) → result ≡ one_if (is both (kind x m y n)) }
{
    u16::from(m != 0 && n != 0)
}

// All cells, in one pass. The compiler makes it a loop with no branch on what a cell holds, eight cells a step.
fn pour(
    first: &[u8],
    first_marks: &[u8],
    second: &[u8],
    second_marks: &[u8],
    cells: &mut [u8],
    marks: &mut [u8],
) -> Pooled
    requires { AsLong (photo first.now first_marks.now) (photo second.now second_marks.now) (photo cells.old marks.old) × (length first.now ≤ strip_most) }
    ensures { PoursAs (photo first.now first_marks.now) (photo second.now second_marks.now) (photo cells.new marks.new) result }
{
    let mut taken: u16 = 0;
    let mut conflict: u16 = 0;
    let mut both: u16 = 0;
    for i in 0..first.len() {
        let (x, m) = (first[i], first_marks[i]);
        let (y, n) = (second[i], second_marks[i]);
        let c = one_conflict(x, m, y, n);
        let b = one_both(m, n);
        cells[i] = byte_of(x, m, y, n);
        marks[i] = (c + b) as u8;
        taken += one_taken(m, n);
        conflict += c;
        both += b;
    }
    Pooled {
        agreed: first.len() - usize::from(taken + conflict + both),
        taken: usize::from(taken),
        conflict: usize::from(conflict),
        both: usize::from(both),
    }
}

// Two pictures of a strip with their marks, pooled over two buffers of its length.
pub fn pool(
    first: &[u8],
    first_marks: &[u8],
    second: &[u8],
    second_marks: &[u8],
    cells: &mut [u8],
    marks: &mut [u8],
) -> Result<Pooled, Refusal>
    ensures { PoolsAs 4 (photo first.now first_marks.now) (photo second.now second_marks.now) (photo cells.old marks.old) (photo cells.new marks.new) result }
{
    enter(
        first,
        first_marks,
        second,
        second_marks,
        cells.len(),
        marks.len(),
    )?;
    Ok(pour(first, first_marks, second, second_marks, cells, marks))
}
