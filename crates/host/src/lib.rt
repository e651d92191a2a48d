// What C sees: numbers and byte slices, the numbers of an answer packed in one. docs/C-INTERFACE.md has the layout.
#![tactic(auto)]

ghost use Rattle.std.specs.Prelude.{◌≡◌, not, ◌<◌, ◌≤◌, eqb, length};
ghost use Rattle.account.specs.Code.{alpha_to, syndrome};
ghost use Rattle.gf256.specs.Gf256.{gf256, times};
ghost use Rattle.code.specs.Word.{word_most};
ghost use Rattle.code.specs.Lane.{lane_most, word_of};
ghost use Rattle.level.specs.Level.{newest};
ghost use Rattle.level.specs.Writing.{lent};
ghost use Rattle.pool.specs.Pooled.{photo};
ghost use Rattle.tiny.specs.Tiny.{place_of};
ghost use Rattle.packing.specs.Packed.{packed_sums};
ghost use Rattle.host.specs.Export.{WriteExport, TestExport, RepairExport, RecordExport, RecordReadExport, TextExport, TextReadExport, StripExport, StripReadExport, PoolExport, TinyExport};

use code::lane::{LANE_MOST, Lane};
use fields::head::Head;
use level::NEWEST;
use rules::Refusal;

// Writes the clean word with the data in front.
#[unsafe(no_mangle)]
pub extern "C" fn zav_word_write(data: &[u8], word: &mut [u8]) -> u64
    ensures { WriteExport «data».now word.old word.new result }
{
    packing::pack_written(code::word::write(data, word))
}

// Tests a word: 1 for clean.
#[unsafe(no_mangle)]
pub extern "C" fn zav_word_test(word: &[u8]) -> u64
    ensures { TestExport word.now result }
{
    packing::pack_tested(code::word::test(word))
}

// Repairs a word in place.
#[unsafe(no_mangle)]
pub extern "C" fn zav_word_repair(word: &mut [u8], marks: &[u8]) -> u64
    ensures { RepairExport word_most marks.now word.old word.new result }
{
    packing::pack_repaired(code::repair::repair(word, marks))
}

// A slice as a lane by value.
fn lane_of(s: &[u8]) -> Lane
    requires { length s.now ≤ lane_most }
    ensures { (result.len ≡ length s.now) × (word_of result ≡ s.now) }
{
    let mut bytes = [0u8; LANE_MOST];
    bytes[..s.len()].copy_from_slice(s);
    Lane {
        bytes,
        len: s.len(),
    }
}

// A lane, written over a slice of its length.
fn put_back(lane: Lane, s: &mut [u8])
    requires { (lane.len ≡ length s.old) × (length s.old ≤ lane_most) }
    ensures { s.new ≡ word_of lane }
{
    s.copy_from_slice(&lane.bytes[..lane.len]);
}

// Repairs a lane of at most 187 bytes in place.
#[unsafe(no_mangle)]
pub extern "C" fn zav_lane_repair(lane: &mut [u8], marks: &[u8]) -> u64
    ensures { RepairExport lane_most marks.now lane.old lane.new result }
{
    let n = lane.len();
    if LANE_MOST < n || n < 6 {
        return packing::pack_repaired(Err(Refusal::Length));
    }
    if marks.len() != n {
        return packing::pack_repaired(Err(Refusal::MarkCount));
    }
    let r = code::lane::repair_lane(lane_of(lane), lane_of(marks));
    let answer = r.answer;
    if answer.is_ok() {
        put_back(r.lane, lane);
    }
    packing::pack_repaired(answer)
}

// The product of two bytes.
#[unsafe(no_mangle)]
pub extern "C" fn zav_product(a: u8, b: u8) -> u8
    ensures { result ≡ times a b }
{
    code::field::product(a, b)
}

// α to a signed exponent.
#[unsafe(no_mangle)]
pub extern "C" fn zav_power(exponent: i32) -> u8
    ensures { result ≡ alpha_to gf256 exponent }
{
    code::field::power(exponent)
}

// The syndrome: S_-2 in the lowest byte, S_2 in bits 32 to 39.
#[unsafe(no_mangle)]
pub extern "C" fn zav_syndrome(word: &[u8]) -> u64
    ensures { result ≡ packed_sums (syndrome gf256 word.now) }
{
    let s = code::word::syndrome_of(word);
    u64::from(s[0])
        + u64::from(s[1]) * 256
        + u64::from(s[2]) * 65536
        + u64::from(s[3]) * 16777216
        + u64::from(s[4]) * 4294967296
}

// Writes the record of a level.
#[unsafe(no_mangle)]
pub extern "C" fn zav_record_write(
    version: usize,
    width: usize,
    height: usize,
    par: usize,
    tiles: &[u8],
    record: &mut [u8],
) -> u64
    ensures { RecordExport (lent version width height par tiles.now) «record».old «record».new result }
{
    let f = Head {
        version,
        width,
        height,
        par,
    };
    packing::pack_written(record::write::write(f, tiles, record))
}

// Reads a record.
#[unsafe(no_mangle)]
pub extern "C" fn zav_record_read(record: &[u8], tiles: &mut [u8]) -> u64
    ensures { RecordReadExport newest «record».now tiles.old tiles.new result }
{
    packing::pack_level(record::read::read_upto(NEWEST, record, tiles))
}

// Reads a record of version 1.
#[unsafe(no_mangle)]
pub extern "C" fn zav_record_read_v1(record: &[u8], tiles: &mut [u8]) -> u64
    ensures { RecordReadExport 1 «record».now tiles.old tiles.new result }
{
    packing::pack_level(record::read::read_upto(1, record, tiles))
}

// Writes the text of a level.
#[unsafe(no_mangle)]
pub extern "C" fn zav_text_write(
    version: usize,
    width: usize,
    height: usize,
    par: usize,
    tiles: &[u8],
    text: &mut [u8],
) -> u64
    ensures { TextExport (lent version width height par tiles.now) text.old text.new result }
{
    let f = Head {
        version,
        width,
        height,
        par,
    };
    packing::pack_written(text::write::write(f, tiles, text))
}

// Reads a text.
#[unsafe(no_mangle)]
pub extern "C" fn zav_text_read(text: &[u8], tiles: &mut [u8]) -> u64
    ensures { TextReadExport text.now tiles.old tiles.new result }
{
    packing::pack_level(text::read::read(text, tiles))
}

// Writes the strip of a level, with the lanes that are named.
#[unsafe(no_mangle)]
pub extern "C" fn zav_strip_write(
    lanes: usize,
    version: usize,
    width: usize,
    height: usize,
    par: usize,
    tiles: &[u8],
    strip: &mut [u8],
) -> u64
    ensures { StripExport lanes (lent version width height par tiles.now) strip.old strip.new result }
{
    let f = Head {
        version,
        width,
        height,
        par,
    };
    packing::pack_written(strip::write::write(lanes, f, tiles, strip))
}

// Reads a strip.
#[unsafe(no_mangle)]
pub extern "C" fn zav_strip_read(
    lanes: usize,
    strip: &[u8],
    marks: &[u8],
    tiles: &mut [u8],
    scratch: &mut [u8],
) -> u64
    ensures { StripReadExport newest lanes strip.now marks.now tiles.old tiles.new scratch.old scratch.new result }
{
    packing::pack_reading(strip::read::read_upto(NEWEST, lanes, strip, marks, tiles, scratch))
}

// Reads a strip of version 1.
#[unsafe(no_mangle)]
pub extern "C" fn zav_strip_read_v1(
    lanes: usize,
    strip: &[u8],
    marks: &[u8],
    tiles: &mut [u8],
    scratch: &mut [u8],
) -> u64
    ensures { StripReadExport 1 lanes strip.now marks.now tiles.old tiles.new scratch.old scratch.new result }
{
    packing::pack_reading(strip::read::read_upto(1, lanes, strip, marks, tiles, scratch))
}

// Pools two pictures of a strip.
#[unsafe(no_mangle)]
pub extern "C" fn zav_strip_pool(
    first: &[u8],
    first_marks: &[u8],
    second: &[u8],
    second_marks: &[u8],
    cells: &mut [u8],
    marks: &mut [u8],
) -> u64
    ensures { PoolExport 4 (photo first.now first_marks.now) (photo second.now second_marks.now) (photo cells.old marks.old) (photo cells.new marks.new) result }
{
    packing::pack_pooling(pool::pool(first, first_marks, second, second_marks, cells, marks))
}

// The next legal board of a tiny size: the first of all, where `start` is not 0, or the one after a given board.
#[unsafe(no_mangle)]
pub extern "C" fn zav_tiny_next(
    width: usize,
    height: usize,
    start: u32,
    given: &[u8],
    tiles: &mut [u8],
) -> u64
    ensures { TinyExport width height (place_of (not (eqb start 0)) given.now) tiles.old tiles.new result }
{
    packing::pack_found(tiny::next(width, height, start != 0, given, tiles))
}
