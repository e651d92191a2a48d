// Writing a text: the first line, and rows of full width.
ghost use Rattle.std.specs.Prelude.{◌≡◌, ◌∷◌, [], ◌++◌, map, ◌+◌, ◌*◌, ◌≤◌, length, take, drop};
ghost use Rattle.std.proofs.lemmas.List.Edits.{sets};
ghost use Rattle.level.specs.Level.{IsLevel, AllTiles};
ghost use Rattle.fields.specs.Head.{lent_as};
ghost use Rattle.typed.specs.Letters.{letter_of};
ghost use Rattle.typed.specs.Text.{joined, rows_of, text_most};
ghost use Rattle.text.specs.Parts.{TextPut};
ghost use Rattle.text.specs.Writing.{TextWritesAs};

use fields::head::Head;
use rules::Refusal;

// The version of the levels that are typed: there is no letter for a pit.
pub const VERSION: usize = 1;

// The bytes of the longest text.
pub const TEXT_MOST: usize = 1001;

// The row of w tiles from tile k on in letters, and its line feed, from byte j of the buffer on.
fn put_letters(w: usize, tiles: &[u8], k: usize, text: &mut [u8], j: usize)
    requires { AllTiles 1 tiles.now × (k + w ≤ length tiles.now) × (j + w + 1 ≤ length text.old) × (length tiles.now ≤ 961) }
    ensures { text.new ≡ sets text.old j (map letter_of (take w (drop k tiles.now)) ++ 10 ∷ []) }
{
    for x in 0..w {
        text[j + x] = typed::letters::letter_of(tiles[k + x]);
    }
    text[j + w] = b'\n';
}

// All rows, from byte j of the buffer on.
fn put_rows(w: usize, h: usize, tiles: &[u8], text: &mut [u8], j: usize)
    requires { AllTiles 1 tiles.now × (length tiles.now ≡ w * h) × (w ≤ 31) × (h ≤ 31) × (j + h * (w + 1) ≤ length text.old) }
    ensures { text.new ≡ sets text.old j (joined (rows_of w h tiles.now)) }
{
    for y in 0..h {
        put_letters(w, tiles, y * w, text, j + y * (w + 1));
    }
}

// The text of a level, in front of the buffer; its length is returned.
fn put_text(f: Head, tiles: &[u8], text: &mut [u8]) -> usize
    requires { IsLevel (lent_as f tiles.now) × (f.version ≡ 1) × (text_most ≤ length text.old) }
    ensures { TextPut (lent_as f tiles.now) text.old text.new result }
{
    let line = typed::line::line_of(f.par);
    let n = line.len;
    text[..n].copy_from_slice(&line.bytes[..n]);
    put_rows(f.width, f.height, tiles, text, n);
    n + f.height * (f.width + 1)
}

// Writes the text of a level of the version that is told, which is 1.
pub fn write(f: Head, tiles: &[u8], text: &mut [u8]) -> Result<usize, Refusal>
    ensures { TextWritesAs (lent_as f tiles.now) text.old text.new result }
{
    if text.len() < TEXT_MOST {
        return Err(Refusal::Buffer);
    }
    lending::check(VERSION, f, tiles)?;
    Ok(put_text(f, tiles, text))
}
