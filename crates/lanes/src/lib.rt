// The lanes of a strip: which are clean, and of the others the errata, noted for the whole strip. The strip keeps its cells.
#![tactic(auto)]

ghost use Rattle.std.specs.Prelude.{◌≡◌, ℕ, ◌/◌, ◌≤◌, ◌<◌, length, get_or};
ghost use Rattle.account.specs.Lanes.{lane};
ghost use Rattle.rules.specs.Says.{Says};
ghost use Rattle.marks.specs.Marks.{ListedIn, AllOf};
ghost use Rattle.dealt.specs.Lanes.{Remaindered, LaneOf};
ghost use Rattle.lanes.specs.Fixes.{Room, LaneNoting, LaneNoted};
ghost use Rattle.lanes.specs.Lanes.{NoneSet, Entered, Ready, OneAs, MendedAs};

use dealt::LANES;
use marks::{Counts, Listed};
use patches::Fixes;
use values::Errata;

mod fixes; // what is to be put right in a strip

// The marked cells of lane l. Most strips have none at all.
fn marked_in(marks: &[u8], marked: bool, lanes: usize, l: usize) -> Option<Listed>
    requires { (l < lanes) × (lanes ≤ 16) × (length marks.now ≤ 4096) × NoneSet marked marks.now }
    ensures { ListedIn lanes l marks.now result }
{
    if !marked {
        return Some(Listed {
            count: 0,
            cells: [0; 5],
        });
    }
    marks::list(marks, lanes, l)
}

// The errata e of lane l, noted after the others. The lane is taken out by value here and not while its errata are looked for, so that its
// copies do not stand on the stack beside what the search keeps there.
#[inline(never)]
fn note_lane(
    strip: &[u8],
    marks: &[u8],
    lanes: usize,
    l: usize,
    e: Errata,
    fixes: &mut Fixes,
) -> Counts
    requires { LaneOf lanes l (length strip.now / lanes) strip.now × (lanes ≤ 16) × LaneNoting lanes l e strip.now marks.now fixes.old }
    ensures { LaneNoted lanes l e strip.now marks.now fixes.old fixes.new result }
{
    let w = dealt::gather(strip, lanes, l, strip.len() / lanes);
    fixes::note(w, e, marks, lanes, l, fixes)
}

// Lane l, which is not clean: its errata, found by its remainder, are noted. How many cells of it are put right; nothing where it is beyond reach.
fn repair_one(
    strip: &[u8],
    marks: &[u8],
    lanes: usize,
    l: usize,
    r: u64,
    listed: Listed,
    fixes: &mut Fixes,
) -> Option<Counts>
    requires { Ready lanes l strip.now marks.now r × AllOf (lane lanes l marks.now) listed × Room fixes.old }
    ensures { OneAs lanes strip.now marks.now l fixes.old fixes.new result }
{
    let n = strip.len() / lanes;
    let e = dealt::search(n, r, listed.cells, listed.count)?;
    Some(note_lane(strip, marks, lanes, l, e, fixes))
}

// Lane l, with the remainder r. A clean lane is only asked for its marks.
fn mend_one(
    strip: &[u8],
    marks: &[u8],
    marked: bool,
    lanes: usize,
    l: usize,
    r: u64,
    fixes: &mut Fixes,
) -> Option<Counts>
    requires { Ready lanes l strip.now marks.now r × NoneSet marked marks.now × Room fixes.old }
    ensures { OneAs lanes strip.now marks.now l fixes.old fixes.new result }
{
    let listed = marked_in(marks, marked, lanes, l)?;
    if r == 0 {
        return Some(Counts {
            mended: 0,
            repainted: 0,
        });
    }
    repair_one(strip, marks, lanes, l, r, listed, fixes)
}

// Every lane in its turn, with its remainder: how many cells are put right in all, or the lowest lane beyond reach.
fn mend_each(
    strip: &[u8],
    marks: &[u8],
    marked: bool,
    lanes: usize,
    r: &[u64; LANES],
    fixes: &mut Fixes,
) -> Result<Counts, usize>
    requires { Entered lanes strip.now marks.now × NoneSet marked marks.now × Remaindered lanes strip.now r.now × Room fixes.old × (fixes.old.count ≡ 0) }
    ensures { MendedAs lanes strip.now marks.now fixes.new result }
{
    let mut sum = Counts {
        mended: 0,
        repainted: 0,
    };
    for l in 0..lanes {
        let Some(c) = mend_one(strip, marks, marked, lanes, l, r[l], fixes) else {
            return Err(l);
        };
        sum.mended += c.mended;
        sum.repainted += c.repainted;
    }
    Ok(sum)
}

// Whether every lane is clean, by the remainders.
fn all_clean(r: &[u64; LANES], lanes: usize) -> bool
    requires { lanes ≤ 16 }
    ensures { Says result ((j : ℕ) → j < lanes → get_or r.now j 0 ≡ 0) }
{
    r[..lanes].iter().all(|x| *x == 0)
}

// What is to be put right in a strip, of which some cell may be marked or none is; how many cells that are, or the lowest lane beyond reach.
// All lanes are tested in one pass first, and a clean strip with no marks is left at that.
pub fn mend(
    strip: &[u8],
    marks: &[u8],
    marked: bool,
    lanes: usize,
    fixes: &mut Fixes,
) -> Result<Counts, usize>
    requires { Entered lanes strip.now marks.now × NoneSet marked marks.now × (length fixes.old.cells ≡ 80) × (length fixes.old.bytes ≡ 80) }
    ensures { MendedAs lanes strip.now marks.now fixes.new result }
{
    fixes.count = 0;
    let r = dealt::remainders(strip, lanes);
    if !marked && all_clean(&r, lanes) {
        return Ok(Counts {
            mended: 0,
            repainted: 0,
        });
    }
    mend_each(strip, marks, marked, lanes, &r, fixes)
}
