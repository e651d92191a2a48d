// Reads a strip followed by as many marks from standard input, and prints one line: the level's numbers, or a refusal's.
#![tactic(auto)]

ghost use Rattle.std.specs.Prelude.{◌≤◌, length, IfOk};

use level::{NEWEST, SCRATCH_LEAST, TILES_MOST};
use rules::Refusal;
use std::io;
use strip::read::{Read, Unread};

// The lanes of the strips that are read here.
const LANES: usize = 4;

// Bytes of the longest strip of so many lanes, and of its marks.
const INPUT_MOST: usize = 768;

// Reads until the buffer is full or the input ends. What was read stands in front; the answer is how many bytes that is.
fn fill<R: io::Read>(input: &mut R, buffer: &mut [u8]) -> io::Result<usize>
    ensures { IfOk result (λ n. n ≤ length buffer.new) }
{
    let mut n = 0;
    while n < buffer.len() {
        let got = input.read(&mut buffer[n..])?;
        if got == 0 {
            break;
        }
        n += got;
    }
    Ok(n)
}

// What the strip reader says of the first half as a strip and the second as its marks.
fn answer(input: &[u8]) -> Result<Read, Unread> {
    let n = input.len();
    if INPUT_MOST < n || n % 2 == 1 {
        return Err(Unread::from(Refusal::Length));
    }
    let (cells, marks) = input.split_at(n / 2);
    let mut tiles = [0u8; TILES_MOST];
    let mut scratch = [0u8; SCRATCH_LEAST];
    strip::read::read_upto(NEWEST, LANES, cells, marks, &mut tiles, &mut scratch)
}

// Numbers in decimal: width, height, par, mended, wear, of a level of either version; of a refusal its number and lane.
fn show(rt: &impl Print, a: Result<Read, Unread>) -> io::Result<()> {
    match a {
        Ok(
            Read {
                version: _,
                width,
                height,
                par,
                mended,
                repainted: _,
                wear,
                lanes: _,
            },
        ) => println!(rt; "level {width} {height} par {par} mended {mended} wear {wear}"),
        Err(Unread { refusal, lane }) => {
            let code = refusal.number();
            println!(rt; "refused {code} lane {lane}")
        }
    }
}

// A read or a write that fails ends it: the error is told on standard error, and the status is 1.
fn main(rt: HostRuntime) -> io::Result<()> {
    // one byte more than a strip and its marks can have, so that too much is seen
    let mut bytes = [0u8; INPUT_MOST + 1];
    let n = fill(&mut rt.stdin(), &mut bytes)?;
    show(&rt, answer(&bytes[..n]))
}
