// Reading a record: judged first, and its tiles written only where nothing is refused.
ghost use Rattle.std.specs.Prelude.{◌≤◌, length};
ghost use Rattle.rules.specs.Refusal.{Within};
ghost use Rattle.fields.specs.Judged.{JudgedAs, AcceptedAs};
ghost use Rattle.record.specs.Reading.{RecordReadsAs};
ghost use Rattle.level.specs.Sizes.{tiles_most, record_least, filled_most};

use fields::head::Head;
use level::{RECORD_LEAST, RECORD_MOST, TILES_MOST};
use rules::Refusal;

// Refusals 7 to 10 of a record, or of the data cells of a strip of that many lanes, by a reader of versions up to one of them.
fn judge(upto: usize, bs: &[u8], lanes: usize) -> Result<Head, Refusal>
    requires { Within record_least filled_most (length bs.now) × Within 1 16 lanes }
    ensures { JudgedAs upto lanes bs.now result }
{
    let f = fields::head::head_of(bs);
    if !fields::head::head_ranged(upto, f.version, f.width, f.height) {
        return Err(Refusal::Fields);
    }
    if !fields::shape::shaped(bs, lanes, f.width * f.height) {
        return Err(Refusal::Shape);
    }
    fields::tile::sum_code(f.version, tiles::count::tally(&bs[3..]))?;
    Ok(f)
}

// The record judged, or the data cells of a strip of that many lanes; its tiles are written only where nothing is refused.
pub fn accept(upto: usize, bs: &[u8], lanes: usize, tiles: &mut [u8]) -> Result<Head, Refusal>
    requires { Within record_least filled_most (length bs.now) × Within 1 16 lanes × (tiles_most ≤ length tiles.old) }
    ensures { AcceptedAs upto lanes bs.now tiles.old tiles.new result }
{
    let judged = judge(upto, bs, lanes)?;
    tiles::put::unpack(&bs[3..], judged.width * judged.height, tiles);
    Ok(judged)
}

// Reads a record of a version up to one of them.
pub fn read_upto(upto: usize, bytes: &[u8], tiles: &mut [u8]) -> Result<Head, Refusal>
    ensures { RecordReadsAs upto bytes.now tiles.old tiles.new result }
{
    if bytes.len() < RECORD_LEAST || RECORD_MOST < bytes.len() {
        return Err(Refusal::Length);
    }
    if tiles.len() < TILES_MOST {
        return Err(Refusal::Buffer);
    }
    accept(upto, bytes, 1, tiles)
}
