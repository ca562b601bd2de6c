// The fixed words.
ghost use Rattle.std.specs.Prelude.{◌<◌, length};
ghost use Rattle.scan.specs.Words.{WordAt};

use crate::refusal::Refusal;

// Reads `word`, whose first byte stands in `text` at `from`.
pub fn word_at(text: &[u8], from: usize, word: &[u8]) -> Result<usize, Refusal>
    requires { from < length text.now }
    ensures read { WordAt text.now word.now from result }
{
    for k in 1..word.len() {
        let i = from + k;
        if text.len() <= i {
            return Err(Refusal::Short(i));
        }
        if text[i] != word[k] {
            return Err(Refusal::Wrong(i));
        }
    }
    Ok(from + word.len().max(1))
}
