// The reader.
ghost use Rattle.reader.specs.Answers.{ReadAs};

use crate::answer::{Input, Refused};
use crate::fill::fill;
use crate::limits::MAX_TEXT;
use crate::record::clear;
use crate::settle::settle;
use members::record::RECORD_WORDS;
use names::closing::closing_quote;
use scan::refusal::Refusal;

// Reads `text`, which is that input, fills `table` with its records, and gives their number. A refused
// text leaves zeros in the words that it could have filled; where it is too long, or the table too short,
// the table stays as it is.
pub fn read_text(text: &[u8], table: &mut [u32], input: Input) -> Result<u32, Refused>
    ensures read { ReadAs input text.now table.old table.new result }
{
    if MAX_TEXT < text.len() {
        return Err(Refused {
            refusal: Refusal::Long,
            input,
        });
    }
    let words = RECORD_WORDS * text.len();
    if table.len() < words {
        return Err(Refused {
            refusal: Refusal::Narrow,
            input,
        });
    }
    let s = fill(text, table);
    let first = settle(text, table, s);
    if let Some(q) = first {
        clear(table, words);
        return Err(Refused {
            refusal: Refusal::Repeated(closing_quote(text, q + 1)),
            input,
        });
    }
    if let Some(refusal) = s.refusal {
        clear(table, words);
        return Err(Refused { refusal, input });
    }
    Ok(s.count as u32)
}
