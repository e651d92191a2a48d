// Repair of a word in place: find the errata, count, apply.
ghost use Rattle.std.specs.Prelude.{length};
ghost use Rattle.account.specs.Errata.{Applied};
ghost use Rattle.gf256.specs.Gf256.{gf256};
ghost use Rattle.errata.specs.Errata.{cells_of, values_of, ErrataFor, SearchedAs};
ghost use Rattle.code.specs.Word.{word_most};
ghost use Rattle.code.specs.Repair.{WordEntersAs, Searchable, RepairsAs};

use super::word::WORD_MOST;
use marks::Counts;
use rules::Refusal;
use values::Errata;

// How many marked cells are within reach.
const REACH: usize = 5;

// Refusals 1 to 3, or how many cells are marked.
fn enter(n: usize, marks: &[u8]) -> Result<usize, Refusal>
    ensures { WordEntersAs n marks.now result }
{
    if n < 6 || WORD_MOST < n {
        return Err(Refusal::Length);
    }
    if marks.len() != n {
        return Err(Refusal::MarkCount);
    }
    marks::tally(marks).ok_or(Refusal::Mark)
}

// The errata of a word of which f cells are marked. A clean word costs no more than its test.
fn search(word: &[u8], marks: &[u8], f: usize) -> Option<Errata>
    requires { Searchable (length word.now) marks.now f }
    ensures { SearchedAs marks.now word.now result }
{
    if REACH < f {
        return None;
    }
    let r = remainder::remainder_of(word);
    if r == 0 {
        return Some(Errata {
            count: 0,
            cells: [0; 5],
            values: [0; 5],
        });
    }
    let cells = marks::all(marks, f);
    let s = remainder::syndrome_of(r);
    errata::find(s, marks.len(), cells, f)
}

// The errata, added to the word.
fn apply(e: Errata, word: &mut [u8])
    requires { ErrataFor (length word.old) e }
    ensures { Applied gf256 (cells_of e) (values_of e) word.old word.new }
{
    for k in 0..e.count {
        word[e.cells[k]] ^= e.values[k];
    }
}

// The word becomes the clean word within reach, if there is one; how many unmarked cells were mended, and how many marked ones repainted.
pub fn repair(word: &mut [u8], marks: &[u8]) -> Result<Counts, Refusal>
    ensures { RepairsAs gf256 word_most marks.now word.old word.new result }
{
    let f = enter(word.len(), marks)?;
    let errata = search(word, marks, f).ok_or(Refusal::OutOfReach)?;
    let counts = marks::count(errata, marks);
    apply(errata, word);
    Ok(counts)
}
