// Writing a strip: the record, its filling, and the check cells of each lane.
ghost use Rattle.std.specs.Prelude.{◌≤◌, length};
ghost use Rattle.rules.specs.Placed.{Placed};
ghost use Rattle.level.specs.Sizes.{strip_most};
ghost use Rattle.level.specs.Level.{IsLevel};
ghost use Rattle.level.specs.Strip.{LaneCount};
ghost use Rattle.fields.specs.Head.{lent_as};
ghost use Rattle.strip.specs.Writing.{StripWritesAs, LaidAs};

use fields::head::Head;
use level::{NEWEST, STRIP_MOST};
use rules::Refusal;

// Zero cells from a place on, up to an end.
fn fill(x: &mut [u8], from: usize, to: usize)
    requires { (from ≤ to) × (to ≤ length x.old) }
    ensures { Placed from to (λ p. 0) x.old x.new }
{
    for p in from..to {
        x[p] = 0;
    }
}

// The level's strip, in the first cells of a buffer; its length.
fn lay(lanes: usize, f: Head, tiles: &[u8], out: &mut [u8]) -> usize
    requires { LaneCount lanes × IsLevel (lent_as f tiles.now) × (strip_most ≤ length out.old) }
    ensures { LaidAs lanes (lent_as f tiles.now) out.old out.new result }
{
    let b = lending::put_record(f, tiles, out);
    let k = (b + (lanes - 1)) / lanes;
    fill(out, b, lanes * k);
    dealt::put_checks(out, lanes, k);
    lanes * (k + 5)
}

// Writes the strip of a level, with the lanes that are told.
pub fn write(lanes: usize, f: Head, tiles: &[u8], out: &mut [u8]) -> Result<usize, Refusal>
    ensures { StripWritesAs lanes (lent_as f tiles.now) out.old out.new result }
{
    if !entry::named(lanes) {
        return Err(Refusal::LaneCount);
    }
    if out.len() < STRIP_MOST {
        return Err(Refusal::Buffer);
    }
    lending::check(NEWEST, f, tiles)?;
    Ok(lay(lanes, f, tiles, out))
}
