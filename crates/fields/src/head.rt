// The fields in front of the tiles: refusal 7.
ghost use Rattle.std.specs.Prelude.{◌≤◌, length};
ghost use Rattle.rules.specs.Says.{Says};
ghost use Rattle.fields.specs.Head.{Heads, VersionTaken, HeadRanged};

use level::NEWEST;

// The fields in front of the tiles.
#[derive(Clone, Copy)]
pub struct Head {
    pub version: usize,
    pub width: usize,
    pub height: usize,
    pub par: usize,
}

pub fn head_of(bs: &[u8]) -> Head
    requires { 3 ≤ length bs.now }
    ensures { Heads bs.now result }
{
    let a = usize::from(bs[0]);
    let b = usize::from(bs[1]);
    let c = usize::from(bs[2]);
    Head {
        version: a / 16,
        width: a % 16 * 2 + b / 128,
        height: b / 4 % 32,
        par: b % 4 * 256 + c,
    }
}

// A version that there is, and that is taken.
pub fn version_taken(upto: usize, version: usize) -> bool
    ensures { Says result (VersionTaken upto version) }
{
    1 <= version && version <= NEWEST && version <= upto
}

// The fields are in their ranges; the bits of width, height and par leave no room above.
pub fn head_ranged(upto: usize, version: usize, width: usize, height: usize) -> bool
    ensures { Says result (HeadRanged upto version width height) }
{
    version_taken(upto, version) && 1 <= width && 1 <= height
}
