// The look-up.
ghost use Rattle.entries.specs.Entries.{Finder};
ghost use Rattle.reader.specs.Answers.{answer_of};

use lookup::find::find_text;
use reader::answer::Answer;

// Reads `text` as `read` does and finds the value that `pointer` names; the count is the number of its record.
pub fn find(text: &[u8], table: &mut [u32], pointer: &[u8]) -> Answer
    ensures finder { Finder text.now table.old pointer.now (answer_of result) table.new }
{
    find_text(text, table, pointer).into()
}
