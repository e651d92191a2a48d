// Entering a strip for reading: what is asked before the picture is looked at, refusals 15 and 1 to 5.
#![tactic(auto)]

ghost use Rattle.rules.specs.Says.{Says};
ghost use Rattle.rules.specs.Refusal.{Within};
ghost use Rattle.level.specs.Strip.{LaneCount, Legal};
ghost use Rattle.entry.specs.Entering.{StripEntersAs};

use level::{RECORD_LEAST, RECORD_MOST, SCRATCH_LEAST, TILES_MOST};
use rules::Refusal;

// A lane count is one that can be named.
pub fn named(lanes: usize) -> bool
    ensures { Says result (LaneCount lanes) }
{
    lanes == 2 || lanes == 4 || lanes == 8 || lanes == 16
}

// A strip's length is legal. Beside five check cells each, the lanes have room for the shortest record, and less than a column more than the longest takes.
pub fn legal(lanes: usize, n: usize) -> bool
    requires { Within 1 16 lanes }
    ensures { Says result (Legal lanes n) }
{
    5 * lanes + RECORD_LEAST <= n && n < 6 * lanes + RECORD_MOST && n % lanes == 0
}

// Refusals 15 and 1 to 5, or whether any cell is marked.
pub fn enter(
    lanes: usize,
    strip: &[u8],
    marks: &[u8],
    tiles: usize,
    scratch: usize,
) -> Result<bool, Refusal>
    ensures { StripEntersAs lanes strip.now marks.now tiles scratch result }
{
    if !named(lanes) {
        return Err(Refusal::LaneCount);
    }
    if !legal(lanes, strip.len()) {
        return Err(Refusal::Length);
    }
    if marks.len() != strip.len() {
        return Err(Refusal::MarkCount);
    }
    let any = marks::any(marks);
    if 1 < any {
        return Err(Refusal::Mark);
    }
    if tiles < TILES_MOST {
        return Err(Refusal::Buffer);
    }
    if scratch < SCRATCH_LEAST {
        return Err(Refusal::Scratch);
    }
    Ok(any != 0)
}
