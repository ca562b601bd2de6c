// The look-up as a part of the text.
ghost use Rattle.entries.specs.Entries.{PartFinder};

use crate::find::find_text;
use members::record::word_at;

// A part of a text, by the offsets of its first byte and behind its last.
#[repr(C)]
#[derive(Clone, Copy)]
pub struct Part {
    pub start: usize,
    pub end: usize,
}

// Where the value stands that `pointer` names in `text`; the empty part at 0 on any refusal.
pub fn part_text(text: &[u8], table: &mut [u32], pointer: &[u8]) -> Part
    ensures part { PartFinder text.now table.old pointer.now result.start result.end table.new }
{
    let Ok(n) = find_text(text, table, pointer) else {
        return Part { start: 0, end: 0 };
    };
    let r = n as usize;
    Part {
        start: word_at(table, r, 0),
        end: word_at(table, r, 1),
    }
}
