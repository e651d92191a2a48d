// The first line of a text that is read.
ghost use Rattle.std.specs.Prelude.{◌≡◌, drop};
ghost use Rattle.typed.specs.Parts.{spelled, HeadIs};

use super::line::line_of;

// The number that the digits from byte 4 on spell, at most four of them.
fn number(text: &[u8]) -> usize
    ensures { result ≡ spelled 4 0 (drop 4 text.now) }
{
    let mut n = 0;
    for i in 4..8 {
        let c = tiles::group::cell(text, i);
        if c < b'0' || b'9' < c {
            return n;
        }
        n = n * 10 + usize::from(c - b'0');
    }
    n
}

// The par of a text, and where its rows begin.
#[derive(Clone, Copy)]
pub struct Head {
    pub par: usize,
    pub from: usize,
}

// What the first line says, if it is right. The digits are read without care, and the line of that number is then held against the text.
pub fn head_of(text: &[u8]) -> Option<Head>
    ensures { HeadIs text.now result }
{
    let par = number(text);
    if 1023 < par {
        return None;
    }
    let line = line_of(par);
    if !text.starts_with(&line.bytes[..line.len]) {
        return None;
    }
    Some(Head {
        par,
        from: line.len,
    })
}
