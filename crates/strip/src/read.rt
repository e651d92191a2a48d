// Reading a strip: what is to be put right in its lanes, and the record in the mended strip judged and unpacked.
ghost use Rattle.std.specs.Prelude.{◌≡◌, ◌≤◌, length};
ghost use Rattle.rules.specs.Refusal.{Within};
ghost use Rattle.level.specs.Strip.{LaneCount, Legal, IsWear};
ghost use Rattle.level.specs.Reading.{data_of};
ghost use Rattle.patches.specs.Patched.{patched};
ghost use Rattle.fields.specs.Judged.{AcceptedAs};
ghost use Rattle.strip.specs.Reading.{FinishesAs, StripReadsAs};
ghost use Rattle.level.specs.Sizes.{tiles_most, scratch_least, strip_most};

use fields::head::Head;
use marks::Counts;
use patches::{FIXES, Fixes};
use rules::Refusal;

// The level's numbers, with what was mended and repainted.
#[derive(Clone, Copy)]
pub struct Read {
    pub version: usize,
    pub width: usize,
    pub height: usize,
    pub par: usize,
    pub mended: usize,
    pub repainted: usize,
    pub wear: usize,
    pub lanes: usize,
}

// Why there is no level; beyond reach, the lowest lane that is, else 0.
#[derive(Clone, Copy)]
pub struct Unread {
    pub refusal: Refusal,
    pub lane: usize,
}

impl From<Refusal> for Unread {
    ghost from_gives = { λ r u. u ≡ record { refusal = r; lane = 0 } };

    fn from(refusal: Refusal) -> Unread {
        Unread { refusal, lane: 0 }
    }
}

// Percent of the cells that were mended, to the nearest whole number. The quotient is too low where more than half a percent is left; an exact
// half goes to the even number, so an odd quotient gives way to it.
fn wear(mended: usize, n: usize) -> usize
    requires { (mended ≤ 32) × Within 1 strip_most n }
    ensures { IsWear mended n result }
{
    let percents = 100 * mended;
    let down = percents / n;
    if 2 * (percents % n) + down % 2 > n {
        return down + 1;
    }
    down
}

// The record in the data cells of the strip, with what is to be put right. With nothing to put right the strip is its own window.
fn accept(
    upto: usize,
    lanes: usize,
    strip: &[u8],
    fixes: &Fixes,
    tiles: &mut [u8],
    scratch: &mut [u8],
) -> Result<Head, Refusal>
    requires { LaneCount lanes × Legal lanes (length strip.now) × (tiles_most ≤ length tiles.old) × (scratch_least ≤ length scratch.old) }
    ensures { AcceptedAs upto lanes (data_of lanes (patched fixes.now.cells fixes.now.bytes fixes.now.count strip.now)) tiles.old tiles.new result }
{
    let to = strip.len() - lanes * 5;
    if fixes.count == 0 {
        return record::read::accept(upto, &strip[..to], lanes, tiles);
    }
    windows::accept(upto, strip, fixes, lanes, to, tiles, scratch)
}

// The answer for a record that was accepted, of a strip of n cells of which so many were mended and repainted.
fn finish(f: Head, lanes: usize, n: usize, c: Counts) -> Read
    requires { (c.mended ≤ 32) × Within 1 strip_most n }
    ensures { FinishesAs lanes f n c result }
{
    Read {
        version: f.version,
        width: f.width,
        height: f.height,
        par: f.par,
        mended: c.mended,
        repainted: c.repainted,
        wear: wear(c.mended, n),
        lanes,
    }
}

// Reads a strip of the lanes that are told, of a version up to one of them: the level within reach, or a refusal. The strip and its marks are
// not written to.
pub fn read_upto(
    upto: usize,
    lanes: usize,
    strip: &[u8],
    marks: &[u8],
    tiles: &mut [u8],
    scratch: &mut [u8],
) -> Result<Read, Unread>
    ensures { StripReadsAs upto lanes strip.now marks.now tiles.old tiles.new scratch.old scratch.new result }
{
    let marked = entry::enter(lanes, strip, marks, tiles.len(), scratch.len())?;
    let mut fixes = Fixes {
        cells: [0; FIXES],
        bytes: [0; FIXES],
        count: 0,
    };
    let counts = match lanes::mend(strip, marks, marked, lanes, &mut fixes) {
        Ok(counts) => counts,
        Err(lane) => {
            return Err(Unread {
                refusal: Refusal::OutOfReach,
                lane,
            });
        }
    };
    let f = accept(upto, lanes, strip, &fixes, tiles, scratch)?;
    Ok(finish(f, lanes, strip.len(), counts))
}
