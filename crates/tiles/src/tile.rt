// Tiles: the table of what each adds.
ghost use Rattle.std.specs.Prelude.{◌≡◌};
ghost use Rattle.tiles.specs.Sum.{weighed};

// What a tile adds; off counts crates off their goals.
#[derive(Clone, Copy)]
struct Adds {
    player: u64,
    crate_: u64,
    goal: u64,
    off: u64,
}

// Floor, wall, crate, goal, crate on goal, player, player on goal, pit.
const ADDS: [Adds; 8] = [
    Adds {
        player: 0,
        crate_: 0,
        goal: 0,
        off: 0,
    },
    Adds {
        player: 0,
        crate_: 0,
        goal: 0,
        off: 0,
    },
    Adds {
        player: 0,
        crate_: 1,
        goal: 0,
        off: 1,
    },
    Adds {
        player: 0,
        crate_: 0,
        goal: 1,
        off: 0,
    },
    Adds {
        player: 0,
        crate_: 1,
        goal: 1,
        off: 0,
    },
    Adds {
        player: 1,
        crate_: 0,
        goal: 0,
        off: 0,
    },
    Adds {
        player: 1,
        crate_: 0,
        goal: 1,
        off: 0,
    },
    Adds {
        player: 0,
        crate_: 0,
        goal: 0,
        off: 0,
    },
];

// A row in one number, ten bits for each sum. A constant is no call's result, so this is a macro.
macro_rules! packed {
    ($row:expr) => {
        $row.player + ($row.crate_ << 10) + ($row.goal << 20) + ($row.off << 30)
    };
}

// The rows packed. The pit is counted too, above the sums, and last what is no tile code.
static ROWS: [u64; 9] = [
    packed!(ADDS[0]),
    packed!(ADDS[1]),
    packed!(ADDS[2]),
    packed!(ADDS[3]),
    packed!(ADDS[4]),
    packed!(ADDS[5]),
    packed!(ADDS[6]),
    packed!(ADDS[7]) + (1 << 40),
    1 << 50,
];

// What a tile adds.
pub fn weigh(t: u8) -> u64
    ensures { result ≡ weighed t }
{
    ROWS[usize::from(t.min(8))]
}
