// Reading a text: judged first, and its tiles written only where nothing is refused.
ghost use Rattle.std.specs.Prelude.{◌≡◌, ◌≤◌, length};
ghost use Rattle.level.specs.Sizes.{tiles_most};
ghost use Rattle.typed.specs.Parts.{Shown};
ghost use Rattle.text.specs.Reading.{TextReadsAs};
ghost use Rattle.text.specs.Parts.{RowsReadAs};

use super::write::VERSION;
use fields::head::Head;
use level::TILES_MOST;
use rules::Refusal;

// Refusals 12 and 10 of rows, and their tiles where there is none. The board is floor until the rows are laid out on it.
fn judge(body: &[u8], f: Head, tiles: &mut [u8]) -> Result<Head, Refusal>
    requires { Shown body.now f.width f.height × (f.version ≡ 1) × (f.par ≤ 1023) × (tiles_most ≤ length tiles.old) }
    ensures { RowsReadAs f.par body.now tiles.old tiles.new result }
{
    if !lending::sized(f.width, f.height) {
        return Err(Refusal::Rows);
    }
    let mut board = [0u8; TILES_MOST];
    typed::rows::put(body, f.width, &mut board);
    let m = f.width * f.height;
    lending::check(VERSION, f, &board[..m])?;
    tiles[..m].copy_from_slice(&board[..m]);
    Ok(f)
}

// Reads a text.
pub fn read(text: &[u8], tiles: &mut [u8]) -> Result<Head, Refusal>
    ensures { TextReadsAs text.now tiles.old tiles.new result }
{
    if tiles.len() < TILES_MOST {
        return Err(Refusal::Buffer);
    }
    let head = typed::head::head_of(text).ok_or(Refusal::Text)?;
    let body = &text[head.from..];
    let seen = typed::rows::see(body);
    if seen.foreign != 0 || seen.column != 0 {
        return Err(Refusal::Text);
    }
    let f = Head {
        version: VERSION,
        width: seen.longest,
        height: seen.rows,
        par: head.par,
    };
    judge(body, f, tiles)
}
