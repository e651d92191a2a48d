// The length of a record, and its filling: refusal 8.
ghost use Rattle.std.specs.Prelude.{◌≡◌, ℕ, ◌+◌, ◌-◌, ◌*◌, ◌/◌, ◌%◌, ◌^◌, ◌≤◌, ◌<◌, length, get_or};
ghost use Rattle.rules.specs.Refusal.{Within};
ghost use Rattle.rules.specs.Says.{Says};
ghost use Rattle.level.specs.Record.{bit_at, field_at};
ghost use Rattle.level.specs.Strip.{columns};
ghost use Rattle.level.specs.Reading.{Shaped};
ghost use Rattle.level.specs.Sizes.{tiles_most};

// The bits of a byte from bit k on, the most significant being bit 0.
fn low_bits(b: u8, k: usize) -> usize
    requires { k < 8 }
    ensures { result ≡ b % 2 ^ (8 - k) }
{
    usize::from(b) % (256 >> k)
}

// No byte is other than zero.
fn zeros(bs: &[u8]) -> bool
    ensures { Says result ((q : ℕ) → q < length bs.now → get_or bs.now q 0 ≡ 0) }
{
    bs.iter().all(|b| *b == 0)
}

// No bit is set from a place on: in the byte of that place, and in those after it.
pub fn blank(bs: &[u8], from: usize) -> bool
    ensures { Says result ((p : ℕ) → from ≤ p → p < 8 * length bs.now → bit_at bs.now p ≡ 0) }
{
    let at = from / 8;
    bs.len() <= at || low_bits(bs[at], from % 8) == 0 && zeros(&bs[at + 1..])
}

// So many bytes are those of m tiles, for a record (lanes = 1) or the data cells of a strip.
pub fn fits(len: usize, lanes: usize, m: usize) -> bool
    requires { Within 1 16 lanes × (m ≤ tiles_most) }
    ensures { Says result (len ≡ lanes * columns lanes (3 + (3 * m + 7) / 8)) }
{
    let n = 3 + (3 * m + 7) / 8;
    len == lanes * ((n + (lanes - 1)) / lanes)
}

// The length is that of the size, and what is left over is blank.
pub fn shaped(bs: &[u8], lanes: usize, m: usize) -> bool
    requires { Within 1 16 lanes × (m ≡ field_at bs.now 4 5 * field_at bs.now 9 5) × (m ≤ tiles_most) }
    ensures { Says result (Shaped lanes bs.now) }
{
    fits(bs.len(), lanes, m) && blank(bs, 24 + 3 * m)
}
