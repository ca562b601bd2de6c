// The canonical writer.
ghost use Rattle.std.specs.Prelude.{◌*◌, ◌≤◌, length, ◌≡◌};
ghost use Rattle.entries.specs.Answer.{Writing, max_text};
ghost use Rattle.entries.specs.Entries.{Writer};
ghost use Rattle.reader.specs.Answers.{told};
ghost use Rattle.text.specs.Bytes.{Bytes};
ghost use Rattle.writer.specs.Writes.{Writes};

use crate::measure::needed;
use crate::put::put_value;
use crate::room::room_for;
use reader::answer::{Input, Refused};
use reader::read::read_text;

// Writes a text that was read to the front of `out`. The exact length is known before a byte is written, so
// a refusal leaves the output as it is.
fn write_read(text: &[u8], table: &mut [u32], out: &mut [u8]) -> Result<u32, Refused>
    requires { (length text.now ≤ max_text) × ((c : Bytes) × Writes text.now table.old 0 0 c × (length c ≤ 6 * length text.now)) }
    ensures writing { (c : Bytes) → Writes text.now table.old 0 0 c → Writing c out.old (told result) out.new }
    ensures same { table.new ≡ table.old }
{
    let n = needed(text, table, 0);
    room_for(n, out)?;
    put_value(text, table, 0, 0, out);
    Ok(n as u32)
}

// Reads `text`, fills `table` with its records, and writes its canonical text to the front of `out`.
pub fn write_text(text: &[u8], table: &mut [u32], out: &mut [u8]) -> Result<u32, Refused>
    ensures writer { Writer text.now table.old out.old (told result) table.new out.new }
{
    read_text(text, table, Input::First)?;
    write_read(text, table, out)
}
