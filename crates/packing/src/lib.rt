// The numbers of an answer, packed in one. docs/C-INTERFACE.md has the layout.
#![tactic(auto)]

ghost use Rattle.std.specs.Prelude.{◌≡◌};
ghost use Rattle.rules.specs.Refusal.{written_numbers};
ghost use Rattle.code.specs.Word.{tested_numbers};
ghost use Rattle.code.specs.Repair.{repaired_numbers};
ghost use Rattle.record.specs.Reading.{record_numbers};
ghost use Rattle.strip.specs.Reading.{strip_numbers};
ghost use Rattle.pool.specs.Pooled.{pool_numbers};
ghost use Rattle.tiny.specs.Tiny.{next_numbers};
ghost use Rattle.packing.specs.Packed.{packed_length, packed_read, packed_repair, packed_pool};

use fields::head::Head;
use marks::Counts;
use pool::Pooled;
use rules::Refusal;
use strip::read::{Read, Unread};

// A code in the lowest five bits, and a value from bit 48 on.
fn pack_length(code: u8, value: usize) -> u64
    ensures { result ≡ packed_length record { code = code; value = value } }
{
    u64::from(code % 32) + ((value % 65536) as u64) * 281474976710656
}

pub fn pack_written(a: Result<usize, Refusal>) -> u64
    ensures { result ≡ packed_length (written_numbers a) }
{
    match a {
        Ok(n) => pack_length(0, n),
        Err(r) => pack_length(r.number(), 0),
    }
}

pub fn pack_tested(a: Result<bool, Refusal>) -> u64
    ensures { result ≡ packed_length (tested_numbers a) }
{
    match a {
        Ok(clean) => pack_length(0, usize::from(clean)),
        Err(r) => pack_length(r.number(), 0),
    }
}

pub fn pack_found(a: Result<Option<usize>, Refusal>) -> u64
    ensures { result ≡ packed_length (next_numbers a) }
{
    match a {
        Ok(n) => pack_length(0, n.unwrap_or(0)),
        Err(r) => pack_length(r.number(), 0),
    }
}

// The numbers of a reader or of a repair.
#[derive(Clone, Copy)]
struct Numbers {
    code: u8,
    lane: usize,
    version: usize,
    width: usize,
    height: usize,
    par: usize,
    mended: usize,
    repainted: usize,
    wear: usize,
    lanes: usize,
}

// What an answer does not tell.
const UNTOLD: Numbers = Numbers {
    code: 0,
    lane: 0,
    version: 0,
    width: 0,
    height: 0,
    par: 0,
    mended: 0,
    repainted: 0,
    wear: 0,
    lanes: 0,
};

// Each at its place.
fn pack_numbers(n: Numbers) -> u64
    ensures { result ≡ packed_read record { code = n.code; lane = n.lane; version = n.version; width = n.width; height = n.height; par = n.par; mended = n.mended; repainted = n.repainted; wear = n.wear; lanes = n.lanes } }
{
    u64::from(n.code % 32)
        + ((n.lane % 16) as u64) * 32
        + ((n.version % 4) as u64) * 512
        + ((n.width % 32) as u64) * 2048
        + ((n.height % 32) as u64) * 65536
        + ((n.par % 1024) as u64) * 2097152
        + ((n.mended % 64) as u64) * 2147483648
        + ((n.repainted % 128) as u64) * 137438953472
        + ((n.wear % 64) as u64) * 17592186044416
        + ((n.lanes % 32) as u64) * 1125899906842624
}

pub fn pack_repaired(a: Result<Counts, Refusal>) -> u64
    ensures { result ≡ packed_repair (repaired_numbers a) }
{
    pack_numbers(match a {
        Ok(Counts { mended, repainted }) => Numbers {
            mended,
            repainted,
            ..UNTOLD
        },
        Err(r) => Numbers {
            code: r.number(),
            ..UNTOLD
        },
    })
}

pub fn pack_level(a: Result<Head, Refusal>) -> u64
    ensures { result ≡ packed_read (record_numbers a) }
{
    pack_numbers(match a {
        Ok(
            Head {
                version,
                width,
                height,
                par,
            },
        ) => Numbers {
            version,
            width,
            height,
            par,
            ..UNTOLD
        },
        Err(r) => Numbers {
            code: r.number(),
            ..UNTOLD
        },
    })
}

pub fn pack_reading(a: Result<Read, Unread>) -> u64
    ensures { result ≡ packed_read (strip_numbers a) }
{
    pack_numbers(match a {
        Ok(
            Read {
                version,
                width,
                height,
                par,
                mended,
                repainted,
                wear,
                lanes,
            },
        ) => Numbers {
            version,
            width,
            height,
            par,
            mended,
            repainted,
            wear,
            lanes,
            ..UNTOLD
        },
        Err(Unread { refusal, lane }) => Numbers {
            code: refusal.number(),
            lane,
            ..UNTOLD
        },
    })
}

// The numbers of pooling, nine bits for each count.
fn pack_counts(code: u8, c: Pooled) -> u64
    ensures { result ≡ packed_pool record { code = code; agreed = c.agreed; taken = c.taken; conflict = c.conflict; both = c.both } }
{
    u64::from(code % 32)
        + ((c.agreed % 512) as u64) * 32
        + ((c.taken % 512) as u64) * 16384
        + ((c.conflict % 512) as u64) * 8388608
        + ((c.both % 512) as u64) * 4294967296
}

pub fn pack_pooling(a: Result<Pooled, Refusal>) -> u64
    ensures { result ≡ packed_pool (pool_numbers a) }
{
    match a {
        Ok(c) => pack_counts(0, c),
        Err(r) => pack_counts(
            r.number(),
            Pooled {
                agreed: 0,
                taken: 0,
                conflict: 0,
                both: 0,
            },
        ),
    }
}
