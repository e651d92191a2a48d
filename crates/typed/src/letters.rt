// Letters and tiles, by the table of FORMAT 13.3.
ghost use Rattle.std.specs.Prelude.{◌≡◌, ◌≤◌};
ghost use Rattle.rules.specs.Says.{Says};
ghost use Rattle.typed.specs.Letters.{tile_of, letter_of};

// The letters of the tiles, in the order of their codes.
static LETTERS: [u8; 7] = [b'-', b'#', b'$', b'.', b'*', b'@', b'+'];

// The tiles at the last four bits of their letters, `@` being moved next to the space; 7 where there is no letter.
static TILES: [u8; 16] = [0, 5, 7, 1, 2, 7, 7, 7, 7, 7, 4, 6, 7, 0, 3, 7];

// A byte that is a letter; a space stands for floor too. An arm for each, since the compiler makes one test of a bit of them, with nothing to
// guess: this is asked of each byte of a text, and both a look through the table and one pattern of all letters took three times as long or more.
pub(crate) fn is_letter(c: u8) -> bool
    ensures { Says result (tile_of c ≤ 6) }
{
    match c {
        b'-' => true,
        b'#' => true,
        b'$' => true,
        b'.' => true,
        b'*' => true,
        b'@' => true,
        b'+' => true,
        b' ' => true,
        _ => false,
    }
}

// The tile of a letter.
pub(crate) fn tile_of(c: u8) -> u8
    requires { tile_of c ≤ 6 }
    ensures { result ≡ tile_of c }
{
    TILES[usize::from((c + c / 64) % 16)]
}

// The letter of a tile.
pub fn letter_of(t: u8) -> u8
    requires { t ≤ 6 }
    ensures { result ≡ letter_of t }
{
    LETTERS[usize::from(t)]
}
