// The reader.
ghost use Rattle.entries.specs.Entries.{Reader};
ghost use Rattle.reader.specs.Answers.{answer_of};

use reader::answer::{Answer, Input};
use reader::read::read_text;

// Reads `text` and fills `table`, four words for each byte of the text at least, with the records of its
// values; the count is their number.
pub fn read(text: &[u8], table: &mut [u32]) -> Answer
    ensures reader { Reader text.now table.old (answer_of result) table.new }
{
    read_text(text, table, Input::First).into()
}
