// Marks: one byte for each cell, 0 where it is read and 1 where it is unreadable. All of them or-ed, summed and listed, and the cells that errata
// change, counted by their marks.
#![tactic(auto)]

ghost use Rattle.std.specs.Prelude.{◌≡◌, ◌≤◌, ◌<◌, length};
ghost use Rattle.account.specs.Reach.{count_to, is_marked};
ghost use Rattle.values.specs.Values.{Gathered, cells_of, values_of, ErrataFor};
ghost use Rattle.marks.specs.Marks.{Tallied, AnyOf, SumOf, Pushed, ListedIn, CountsOne, CountsAll};

// All marks or-ed together. One pass with no branch and nothing else in it, so that it runs wide.
pub fn any(marks: &[u8]) -> u8
    ensures { AnyOf marks.now result }
{
    let mut x: u8 = 0;
    for mark in marks {
        x |= *mark;
    }
    x
}

// The sum of all marks. The bound, more than a strip has, keeps it from overflowing.
fn sum(marks: &[u8]) -> usize
    requires { length marks.now ≤ 4096 }
    ensures { SumOf marks.now result }
{
    let mut x: usize = 0;
    for mark in marks {
        x += usize::from(*mark);
    }
    x
}

// How many marks are set, or nothing where one is above 1. Where none is set there is nothing to sum.
pub fn tally(marks: &[u8]) -> Option<usize>
    requires { length marks.now ≤ 4096 }
    ensures { Tallied marks.now result }
{
    let any = any(marks);
    if 1 < any {
        return None;
    }
    if any == 0 {
        return Some(0);
    }
    Some(sum(marks))
}

// How many marked cells are within reach.
const MOST: usize = 5;

// The marked cells of a lane, the last first: the first `count` of five. An array of five, since there is no heap.
#[derive(Clone, Copy)]
pub struct Listed {
    pub count: usize,
    pub cells: [usize; 5],
}

// Cell i after the first k, where it stays if it is marked. It is put there in any case: nothing foretells where marks are, and a store costs less
// than a branch that was guessed wrong.
fn push(cells: &mut [usize; 6], k: usize, mark: u8, i: usize) -> usize
    requires { k ≤ 5 }
    ensures { Pushed mark i cells.old k cells.new result }
{
    cells[k] = i;
    k + usize::from(mark != 0)
}

// The marked cells of lane l, or nothing where there are more than five.
pub fn list(marks: &[u8], lanes: usize, l: usize) -> Option<Listed>
    requires { (l < lanes) × (lanes ≤ 16) × (length marks.now ≤ 4096) }
    ensures { ListedIn lanes l marks.now result }
{
    let mut cells = [0usize; 6];
    let mut k: usize = 0;
    for i in (0..marks.len() / lanes).rev() {
        k = push(&mut cells, k, marks[lanes * i + l], i);
        if MOST < k {
            return None;
        }
    }
    Some(Listed {
        count: k,
        cells: [cells[0], cells[1], cells[2], cells[3], cells[4]],
    })
}

// The f marked cells of a word, the last first. It ends with the last one that there is, and most words have none at all: with no marks nothing is
// looked at.
pub fn all(marks: &[u8], f: usize) -> [usize; 5]
    requires { (f ≡ count_to (is_marked marks.now) (length marks.now)) × (f ≤ 5) }
    ensures { Gathered marks.now result f }
{
    let mut cells = [0usize; 6];
    let mut k: usize = 0;
    for i in (0..marks.len()).rev() {
        if k == f {
            break;
        }
        k = push(&mut cells, k, marks[i], i);
    }
    [cells[0], cells[1], cells[2], cells[3], cells[4]]
}

// How many cells errata change: of those that were read, which are mended, and of the marked ones, which are repainted.
#[derive(Clone, Copy)]
pub struct Counts {
    pub mended: usize,
    pub repainted: usize,
}

// The counts with an erratum more, which adds v at cell p.
pub fn count_one(c: Counts, marks: &[u8], p: usize, v: u8) -> Counts
    requires { (p < length marks.now) × (c.mended ≤ 4096) × (c.repainted ≤ 4096) }
    ensures { CountsOne marks.now p v c result }
{
    if v == 0 {
        return c;
    }
    if marks[p] == 0 {
        return Counts {
            mended: c.mended + 1,
            ..c
        };
    }
    Counts {
        repainted: c.repainted + 1,
        ..c
    }
}

// How many cells of a word the errata change.
pub fn count(e: values::Errata, marks: &[u8]) -> Counts
    requires { ErrataFor (length marks.now) e }
    ensures { CountsAll marks.now (cells_of e) (values_of e) result }
{
    let mut c = Counts {
        mended: 0,
        repainted: 0,
    };
    for i in 0..e.count {
        c = count_one(c, marks, e.cells[i], e.values[i]);
    }
    c
}
