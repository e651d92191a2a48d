// The record in a strip that was mended: judged, and its tiles written, through windows on the mended strip. Its first three cells are
// the head; a window from there on has whole groups of eight tiles, but for the last.
#![tactic(auto)]

ghost use Rattle.std.specs.Prelude.{◌≡◌, ◌++◌, ◌+◌, ◌*◌, ◌≤◌, length, drop};
ghost use Rattle.rules.specs.Refusal.{Within};
ghost use Rattle.level.specs.Sizes.{tiles_most};
ghost use Rattle.level.specs.Reading.{tiles_in};
ghost use Rattle.fields.specs.Head.{Heads};
ghost use Rattle.fields.specs.Judged.{JudgedAs, AcceptedAs};
ghost use Rattle.windows.specs.Windows.{Lent, record_in, WeighedAs};

use fields::head::Head;
use patches::Fixes;
use rules::Refusal;

// The bytes in front of the tiles.
const HEAD: usize = 3;

// Tiles in a full window.
const TILES: usize = 496;

// The fields in front of the tiles.
fn head(strip: &[u8], fixes: &Fixes, to: usize, scratch: &mut [u8]) -> Head
    requires { Lent strip.now to (length scratch.old) }
    ensures { Heads (record_in strip.now fixes.now to) result }
{
    patches::show(strip, fixes, 0, HEAD, scratch);
    fields::head::head_of(scratch)
}

// Over all windows: what the tiles add, if no bit is set from one of the record's bits on. (No counted loop: it goes on by as many cells as a
// window has.)
fn weigh(strip: &[u8], fixes: &Fixes, to: usize, bits: usize, scratch: &mut [u8]) -> Option<u64>
    requires { Lent strip.now to (length scratch.old) × (24 ≤ bits) }
    ensures { WeighedAs (record_in strip.now fixes.now to) bits result }
{
    let mut sum: u64 = 0;
    let mut from = HEAD;
    while from < to {
        let n = patches::show(strip, fixes, from, to, scratch);
        if !fields::shape::blank(&scratch[..n], bits.saturating_sub(8 * from)) {
            return None;
        }
        sum += tiles::count::tally(&scratch[..n]);
        from += n;
    }
    Some(sum)
}

// The record in the first cells of the mended strip judged, by a reader of versions up to one of them.
fn judge(
    upto: usize,
    strip: &[u8],
    fixes: &Fixes,
    lanes: usize,
    to: usize,
    scratch: &mut [u8],
) -> Result<Head, Refusal>
    requires { Lent strip.now to (length scratch.old) × Within 1 16 lanes }
    ensures { JudgedAs upto lanes (record_in strip.now fixes.now to) result }
{
    let f = head(strip, fixes, to, scratch);
    if !fields::head::head_ranged(upto, f.version, f.width, f.height) {
        return Err(Refusal::Fields);
    }
    let m = f.width * f.height;
    if !fields::shape::fits(to, lanes, m) {
        return Err(Refusal::Shape);
    }
    let Some(sum) = weigh(strip, fixes, to, 24 + 3 * m, scratch) else {
        return Err(Refusal::Shape);
    };
    fields::tile::sum_code(f.version, sum)?;
    Ok(f)
}

// The first m tiles of the record. (No counted loop: it goes on by as many tiles as a window has.)
fn unpack(strip: &[u8], fixes: &Fixes, to: usize, m: usize, tiles: &mut [u8], scratch: &mut [u8])
    requires { Lent strip.now to (length scratch.old) × (m ≤ tiles_most) × (24 + 3 * m ≤ 8 * to) × (m ≤ length tiles.old) }
    ensures { tiles.new ≡ tiles_in (record_in strip.now fixes.now to) m ++ drop m tiles.old }
{
    let mut from = HEAD;
    let mut t: usize = 0;
    while t < m {
        let n = patches::show(strip, fixes, from, to, scratch);
        let k = TILES.min(m - t);
        tiles::put::unpack(&scratch[..n], k, &mut tiles[t..]);
        from += n;
        t += k;
    }
}

// The record in the first cells of the mended strip judged; its tiles are written only where nothing is refused.
pub fn accept(
    upto: usize,
    strip: &[u8],
    fixes: &Fixes,
    lanes: usize,
    to: usize,
    tiles: &mut [u8],
    scratch: &mut [u8],
) -> Result<Head, Refusal>
    requires { Lent strip.now to (length scratch.old) × Within 1 16 lanes × (tiles_most ≤ length tiles.old) }
    ensures { AcceptedAs upto lanes (record_in strip.now fixes.now to) tiles.old tiles.new result }
{
    let judged = judge(upto, strip, fixes, lanes, to, scratch)?;
    unpack(
        strip,
        fixes,
        to,
        judged.width * judged.height,
        tiles,
        scratch,
    );
    Ok(judged)
}
