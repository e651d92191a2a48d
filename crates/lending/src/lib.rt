// A level that is lent: asked for refusals 7 to 10, and put as a record.
#![tactic(auto)]

ghost use Rattle.std.specs.Prelude.{◌≡◌, ◌≤◌, length};
ghost use Rattle.std.proofs.lemmas.List.Edits.{sets};
ghost use Rattle.rules.specs.Says.{Says};
ghost use Rattle.rules.specs.Refusal.{First, asked, code_of};
ghost use Rattle.level.specs.Sizes.{record_most};
ghost use Rattle.level.specs.Level.{Sized, IsLevel, lending};
ghost use Rattle.level.specs.Record.{record_length};
ghost use Rattle.fields.specs.Head.{lent_as};
ghost use Rattle.lending.specs.Lending.{RecordPut, InRange, head_bytes};

use fields::head::Head;
use rules::Refusal;

// A size that a level has.
pub fn sized(w: usize, h: usize) -> bool
    ensures { Says result (Sized w h) }
{
    1 <= w && w <= 31 && 1 <= h && h <= 31
}

// Refusal 7 of a writer of versions up to one of them.
fn ranged(upto: usize, f: Head) -> bool
    ensures { Says result (InRange upto f) }
{
    fields::head::version_taken(upto, f.version) && sized(f.width, f.height) && f.par <= 1023
}

// Refusals 7 to 10 of a writer of versions up to one of them.
pub fn check(upto: usize, f: Head, tiles: &[u8]) -> Result<(), Refusal>
    ensures { First (asked (λ ask. ask (lent_as f tiles.now)) (lending upto)) (code_of result) }
{
    if !ranged(upto, f) {
        return Err(Refusal::Fields);
    }
    if tiles.len() != f.width * f.height {
        return Err(Refusal::Shape);
    }
    fields::tile::sum_code(f.version, boards::board::tally(tiles))
}

// The bytes of a record.
fn record_length(w: usize, h: usize) -> usize
    requires { Sized w h }
    ensures { (result ≡ record_length w h) × (result ≤ record_most) }
{
    3 + (3 * (w * h) + 7) / 8
}

// Version, width, height and par.
fn put_head(f: Head, out: &mut [u8])
    requires { (f.version ≤ 15) × (f.width ≤ 31) × (f.height ≤ 31) × (f.par ≤ 1023) × (3 ≤ length out.old) }
    ensures { out.new ≡ sets out.old 0 (head_bytes f) }
{
    out[0] = (f.version * 16 + f.width / 2) as u8;
    out[1] = (f.width % 2 * 128 + f.height * 4 + f.par / 256) as u8;
    out[2] = (f.par % 256) as u8;
}

// The record of a level, in the first bytes of a buffer; its length is returned.
pub fn put_record(f: Head, tiles: &[u8], out: &mut [u8]) -> usize
    requires { IsLevel (lent_as f tiles.now) × (record_length f.width f.height ≤ length out.old) }
    ensures { RecordPut (lent_as f tiles.now) out.old out.new result }
{
    let n = record_length(f.width, f.height);
    put_head(f, out);
    boards::pack::pack(tiles, out);
    n
}
