// The canonical writer.
ghost use Rattle.entries.specs.Entries.{Writer};
ghost use Rattle.reader.specs.Answers.{answer_of};

use reader::answer::Answer;
use writer::write::write_text;

// Reads `text` as `read` does and writes its canonical text to the front of `out`; the count is the number of
// bytes written.
pub fn write(text: &[u8], table: &mut [u32], out: &mut [u8]) -> Answer
    ensures writer { Writer text.now table.old out.old (answer_of result) table.new out.new }
{
    write_text(text, table, out).into()
}
