// Words: n bytes, 6 to 255, of which the last five are check bytes.
ghost use Rattle.std.specs.Prelude.{◌≡◌};
ghost use Rattle.account.specs.Code.{syndrome};
ghost use Rattle.gf256.specs.Gf256.{gf256};
ghost use Rattle.code.specs.Word.{WritesAs, TestsAs};

use rules::Refusal;

// How many bytes a word has at most.
pub(crate) const WORD_MOST: usize = 255;

// How many data bytes.
const DATA_MOST: usize = 250;

// Writes the one clean word with the data in front, and answers its length.
pub fn write(data: &[u8], word: &mut [u8]) -> Result<usize, Refusal>
    ensures { WritesAs «data».now word.old word.new result }
{
    let m = data.len();
    if m < 1 || DATA_MOST < m {
        return Err(Refusal::Length);
    }
    if word.len() != m + 5 {
        return Err(Refusal::Buffer);
    }
    let checks = remainder::bytes(remainder::checks_of(data));
    rules::copy(data, word);
    word[m..].copy_from_slice(&checks);
    Ok(m + 5)
}

// Whether a word is clean.
pub fn test(word: &[u8]) -> Result<bool, Refusal>
    ensures { TestsAs word.now result }
{
    let n = word.len();
    if n < 6 || WORD_MOST < n {
        return Err(Refusal::Length);
    }
    Ok(remainder::remainder_of(word) == 0)
}

// The five sums S_-2 to S_2 of a word of any length.
pub fn syndrome_of(word: &[u8]) -> [u8; 5]
    ensures { result ≡ syndrome gf256 word.now }
{
    remainder::syndrome_of(remainder::remainder_of(word))
}
