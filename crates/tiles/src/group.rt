// Bytes as numbers: eight tiles are three bytes.
ghost use Rattle.std.specs.Prelude.{◌≡◌, ◌+◌, ◌≤◌, length, get_or};
ghost use Rattle.tiles.specs.Part.{three_at};
ghost use Rattle.tiles.specs.Word.{word_at};

// Eight bytes as one number, the first highest. It becomes one load.
pub fn word(bytes: &[u8], k: usize) -> u64
    requires { k + 8 ≤ length bytes.now }
    ensures { result ≡ word_at bytes.now k }
{
    u64::from_be_bytes([
        bytes[k],
        bytes[k + 1],
        bytes[k + 2],
        bytes[k + 3],
        bytes[k + 4],
        bytes[k + 5],
        bytes[k + 6],
        bytes[k + 7],
    ])
}

// Byte q, and 0 past the end.
pub fn cell(bs: &[u8], q: usize) -> u8
    ensures { result ≡ get_or bs.now q 0 }
{
    bs.get(q).copied().unwrap_or(0)
}

// Bytes 3 g to 3 g + 2 as one number, 0 past the end.
pub(crate) fn last(part: &[u8], g: usize) -> u64
    requires { g ≤ 1000 }
    ensures { result ≡ three_at part.now g }
{
    u64::from(cell(part, 3 * g)) * 65536
        + u64::from(cell(part, 3 * g + 1)) * 256
        + u64::from(cell(part, 3 * g + 2))
}
