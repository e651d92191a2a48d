// Tiny boards: the legal boards of a size of at most six tiles, one after another.
#![tactic(auto)]

ghost use Rattle.std.specs.Prelude.{◌≡◌, true, ◌≤◌, length, replicate};
ghost use Rattle.rules.specs.Says.{Says};
ghost use Rattle.rules.specs.Refusal.{First, code_of};
ghost use Rattle.level.specs.Sizes.{tiles_most};
ghost use Rattle.level.specs.Level.{AllTiles};
ghost use Rattle.tiny.specs.Tiny.{tiny_most, Tiny, place_of, after, giving, StepsAs};
ghost use Rattle.tiny.specs.Parts.{Stepped, Passed, Lost, Stuck, Seeks, GoesOn};

use level::TILES_MOST;
use rules::Refusal;

// The version of tiny boards.
const VERSION: usize = 1;

// The most tiles of a tiny board.
const TINY_MOST: usize = 6;

// A size of at most six tiles. Where neither number is above six, their product has room.
#[tactic(auto, using(crate::proofs::Given::wide_most, crate::proofs::Given::high_most))]
fn tiny(w: usize, h: usize) -> bool
    ensures { Says result (Tiny w h) }
{
    1 <= w && w <= TINY_MOST && 1 <= h && h <= TINY_MOST && w * h <= TINY_MOST
}

// Each tile has a code.
fn coded(tiles: &[u8]) -> bool
    ensures { Says result (AllTiles 1 tiles.now) }
{
    tiles.iter().all(|t| *t <= 6)
}

// Refusals 8 and 9 of a given board: that it is no level is no refusal here.
fn check(w: usize, h: usize, given: &[u8]) -> Result<(), Refusal>
    requires { Tiny w h }
    ensures { First (giving w h (after given.now)) (code_of result) }
{
    if given.len() != w * h {
        return Err(Refusal::Shape);
    }
    if !coded(given) {
        return Err(Refusal::TileCode);
    }
    Ok(())
}

// (The recursion over the places is as the project's paper has it.) The first `at` tiles as one number in base 7, and one more: a 6 becomes 0 and is carried to the place before it. False past the first place.
fn step(board: &mut [u8], at: usize) -> bool
    requires { AllTiles 1 board.old × (at ≤ length board.old) }
    ensures { Stepped at board.old board.new result }
{
    if at == 0 {
        return false;
    }
    let i = at - 1;
    let t = board[i];
    if t < 6 {
        board[i] = t + 1;
        return true;
    }
    board[i] = 0;
    step(board, i)
}

// On to the next number that has other first k tiles.
fn pass(board: &mut [u8], k: usize) -> bool
    requires { AllTiles 1 board.old × (k ≤ length board.old) }
    ensures { Passed k board.old board.new result }
{
    board[k..].fill(0);
    step(board, k)
}

// Whether tiles that add x can no more become a legal board with so many that are left: these add at most a crate and a goal each, and take no
// player away.
fn lost(x: u64, left: usize) -> bool
    requires { left ≤ tiny_most }
    ensures { result ≡ true → Lost x left }
{
    let players = x % 1024;
    let crates = x / 1024 % 1024;
    let goals = x / 1048576 % 1024;
    let most = left as u64;
    1 < players || goals + most < crates || crates + most < goals
}

// None for a legal board; else how many of its first tiles no legal board begins with.
fn stuck(board: &[u8]) -> Option<usize>
    requires { AllTiles 1 board.now × (1 ≤ length board.now) × (length board.now ≤ tiny_most) }
    ensures { Stuck board.now result }
{
    let n = board.len();
    let mut x: u64 = 0;
    for i in 0..n {
        x += tiles::tile::weigh(board[i]);
        if lost(x, n - 1 - i) {
            return Some(i + 1);
        }
    }
    match fields::tile::sum_code(VERSION, x) {
        Ok(()) => None,
        Err(_) => Some(n),
    }
}

// The next legal board, over the one that is lent. What no legal board begins with is passed over in one step.
fn seek(board: &mut [u8]) -> bool
    requires { AllTiles 1 board.old × (1 ≤ length board.old) × (length board.old ≤ tiny_most) }
    ensures { Seeks board.old board.new result }
{
    let mut k = board.len();
    while pass(board, k) {
        let Some(n) = stuck(board) else {
            return true;
        };
        k = n;
    }
    false
}

// How many tiles the next legal board after the tiles `from` has, in front of the buffer; or none is left.
fn go_on(from: &[u8], tiles: &mut [u8]) -> Option<usize>
    requires { AllTiles 1 from.now × (1 ≤ length from.now) × (length from.now ≤ tiny_most) × (tiles_most ≤ length tiles.old) }
    ensures { GoesOn from.now tiles.old tiles.new result }
{
    let n = from.len();
    let mut board = [0u8; TINY_MOST];
    board[..n].copy_from_slice(from);
    if !seek(&mut board[..n]) {
        return None;
    }
    tiles[..n].copy_from_slice(&board[..n]);
    Some(from.len())
}

// The first legal board of n tiles: all floor is no legal board, and the least of all, so that it is the next after it.
fn first(n: usize, tiles: &mut [u8]) -> Option<usize>
    requires { (1 ≤ n) × (n ≤ tiny_most) × (tiles_most ≤ length tiles.old) }
    ensures { GoesOn (replicate n 0) tiles.old tiles.new result }
{
    let floor = [0u8; TINY_MOST];
    go_on(&floor[..n], tiles)
}

// How many tiles the next legal board of a size has: the first, where the start is wished for, or the one after a given board; or none is left.
pub fn next(
    w: usize,
    h: usize,
    start: bool,
    given: &[u8],
    tiles: &mut [u8],
) -> Result<Option<usize>, Refusal>
    ensures { StepsAs w h (place_of start given.now) tiles.old tiles.new result }
{
    if tiles.len() < TILES_MOST {
        return Err(Refusal::Buffer);
    }
    if !tiny(w, h) {
        return Err(Refusal::NotTiny);
    }
    if start {
        return Ok(first(w * h, tiles));
    }
    check(w, h, given)?;
    Ok(go_on(given, tiles))
}
