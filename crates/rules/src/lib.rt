// What every floor may stand on: the refusals of FORMAT 9, and a plain copy of bytes. The rules that ask for refusals, and what a test says, are
// in specs/.
#![tactic(auto)]

ghost use Rattle.std.specs.Prelude.{◌≡◌, ◌++◌, ◌≤◌, length, drop};
ghost use Rattle.rules.specs.Refusal.{number_of};

// Why an entry refuses, each with its number.
#[derive(Clone, Copy, Debug, PartialEq, Eq)]
pub enum Refusal {
    Length = 1,
    MarkCount = 2,
    Mark = 3,
    Buffer = 4,
    Scratch = 5,
    OutOfReach = 6,
    Fields = 7,
    Shape = 8,
    TileCode = 9,
    Board = 10,
    Text = 11,
    Rows = 12,
    Unequal = 13,
    NotTiny = 14,
    LaneCount = 15,
}

impl Refusal {
    // The number, as C and the program tell it.
    pub fn number(self) -> u8
        ensures { result ≡ number_of self }
    {
        self as u8
    }
}

// The bytes, in front of a buffer that has room for them. Where both are lent, the library's copy asks C for `memmove`, and an archive for C is to
// need no name that it can do without.
pub fn copy(from: &[u8], to: &mut [u8])
    requires { length from.now ≤ length to.old }
    ensures { to.new ≡ from.now ++ drop (length from.now) to.old }
{
    for i in 0..from.len() {
        to[i] = from[i];
    }
}
