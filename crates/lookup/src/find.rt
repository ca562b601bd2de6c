// The look-up.
ghost use Rattle.entries.specs.Entries.{Finder};
ghost use Rattle.lookup.specs.Found.{Found};
ghost use Rattle.reader.specs.Answers.{told};
ghost use Rattle.text.specs.Node.{Node};
ghost use Rattle.values.specs.Held.{Held};

use crate::child::child_of;
use crate::pointer::{check, token_end};
use reader::answer::{Input, Refused};
use reader::read::read_text;
use scan::refusal::Refusal;

// The record of the value that `pointer` names from that of record 0 on. The whole pointer is judged before anything
// is looked up.
fn resolve(text: &[u8], table: &[u32], pointer: &[u8]) -> Result<u32, Refusal>
    requires { (v : Node) × Held text.now table.now 0 v }
    ensures found { (v : Node) → Held text.now table.now 0 v → Found pointer.now v result }
{
    check(pointer)?;
    let mut r: usize = 0;
    let mut i = 0;
    while i < pointer.len() {
        let end = token_end(pointer, i + 1);
        r = child_of(text, table, r, &pointer[i + 1..end]).ok_or(Refusal::Lost(i))?;
        i = end;
    }
    Ok(r as u32)
}

// Reads `text`, fills `table` with its records, and gives the number of that of the value that `pointer` names.
pub fn find_text(text: &[u8], table: &mut [u32], pointer: &[u8]) -> Result<u32, Refused>
    ensures finder { Finder text.now table.old pointer.now (told result) table.new }
{
    read_text(text, table, Input::First)?;
    match resolve(text, table, pointer) {
        Ok(r) => Ok(r),
        Err(refusal) => Err(Refused {
            refusal,
            input: Input::Second,
        }),
    }
}
