// What is to be put right in a strip, and a window on the strip put right: some of its cells, copied from the strip, with what belongs
// there. The mended strip itself is never made.
#![tactic(auto)]

ghost use Rattle.std.specs.Prelude.{◌≡◌, ◌+◌, ◌≤◌, ◌<◌, ◌^◌, length};
ghost use Rattle.patches.specs.Window.{Behind, PatchedAt, WindowPatched, Shown};

// How many cells can be noted: five in each of sixteen lanes.
pub const FIXES: usize = 80;

// How many cells a window has at most.
const WINDOW: usize = 186;

// The cells that are to be put right, as far as they are noted, and what belongs there. Two arrays, since a strip's reader has a bound on its
// stack, and pairs would take a third more.
#[derive(Clone, Copy)]
pub struct Fixes {
    pub cells: [u16; FIXES],
    pub bytes: [u8; FIXES],
    pub count: usize,
    ghost few: { count ≤ 80 },
}

// How far cell p is behind the first of the window, modulo 2^64: below 186 just where it is in the window. One subtraction, and one test then.
fn distance(p: usize, from: usize) -> usize
    requires { from < 2 ^ 63 }
    ensures { Behind from p result }
{
    p.wrapping_sub(from)
}

// The place in the window of what is so far behind its first cell; past the window some place in it, not the same for all, so that stores
// do not wait for each other.
fn offset(q: usize) -> usize
    ensures { (result < 186) × (q < 186 → result ≡ q) }
{
    if q < WINDOW { q } else { q % 64 }
}

// Cell p put right, if it is in the window. If not, another gets what it has: that costs less than a branch.
fn patch_one(p: usize, b: u8, from: usize, window: &mut [u8])
    requires { (from < 2 ^ 63) × (186 ≤ length window.old) }
    ensures { PatchedAt from p b window.old window.new }
{
    let q = distance(p, from);
    let o = offset(q);
    let inside = q < WINDOW;
    let had = window[o];
    window[o] = if inside { b } else { had };
}

// The window that begins at a cell, with what is to be put right in it.
fn patch(fixes: &Fixes, from: usize, window: &mut [u8])
    requires { (from < 2 ^ 63) × (186 ≤ length window.old) }
    ensures { WindowPatched fixes.now.cells fixes.now.bytes fixes.now.count from window.old window.new }
{
    for i in 0..fixes.count {
        patch_one(usize::from(fixes.cells[i]), fixes.bytes[i], from, window);
    }
}

// The window that begins at a cell of the mended strip, in front of the scratch; how many cells it has, of those before an end.
pub fn show(strip: &[u8], fixes: &Fixes, from: usize, to: usize, scratch: &mut [u8]) -> usize
    requires { (from ≤ to) × (to ≤ length strip.now) × (186 ≤ length scratch.old) }
    ensures { Shown strip.now fixes.now.cells fixes.now.bytes fixes.now.count from to scratch.new result }
{
    let n = WINDOW.min(to - from);
    rules::copy(&strip[from..from + n], scratch);
    patch(fixes, from, scratch);
    n
}
