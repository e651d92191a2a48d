// Tiles: refusals 9 and 10.
ghost use Rattle.std.specs.Prelude.{◌<◌};
ghost use Rattle.rules.specs.Says.{Says};
ghost use Rattle.rules.specs.Refusal.{code_of};
ghost use Rattle.fields.specs.Sum.{SumCode, SumFair, sum_most, Matched};

use rules::Refusal;

// The four sums stay below this,
const SUMS: u64 = 1 << 40;

// and with the pits above them below this. What is no tile code counts from here on.
const PITS: u64 = 1 << 50;

// By what the tiles add, each has a code of the version: above the four sums nothing is counted, and from version 2 on pits only.
fn coded(version: usize, x: u64) -> bool
    ensures { Says result (x < sum_most version) }
{
    x < if version < 2 { SUMS } else { PITS }
}

// Crates for the goals: as many, and from version 2 on perhaps more.
fn matched(version: usize, crates: u64, goals: u64) -> bool
    ensures { Says result (Matched version crates goals) }
{
    crates == goals || 2 <= version && goals < crates
}

// By what the tiles add, the board keeps the rule: one player, crates for the goals, and a crate off its goal, so that there is a crate.
fn fair(version: usize, x: u64) -> bool
    ensures { Says result (SumFair version x) }
{
    let players = x % 1024;
    let crates = x / 1024 % 1024;
    let goals = x / 1048576 % 1024;
    let off = x / 1073741824 % 1024;
    players == 1 && off != 0 && matched(version, crates, goals)
}

// Refusals 9 and 10 of a board of the version, by what its tiles add.
pub fn sum_code(version: usize, x: u64) -> Result<(), Refusal>
    ensures { SumCode version x (code_of result) }
{
    if !coded(version, x) {
        return Err(Refusal::TileCode);
    }
    if !fair(version, x) {
        return Err(Refusal::Board);
    }
    Ok(())
}
