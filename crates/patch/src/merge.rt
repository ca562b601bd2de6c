// The merge patch.
ghost use Rattle.entries.specs.Answer.{Writing};
ghost use Rattle.entries.specs.Entries.{Merger};
ghost use Rattle.patch.specs.Emits.{Fits};
ghost use Rattle.patch.specs.Side.{on_sides};
ghost use Rattle.patch.specs.Walks.{Merges};
ghost use Rattle.reader.specs.Answers.{told};
ghost use Rattle.text.specs.Bytes.{Bytes};
ghost use Rattle.std.specs.Prelude.{false, ◌≡◌};

use crate::side::Side;
use crate::walk::merge_value;
use reader::answer::{Input, Refused};
use reader::read::read_text;
use writer::room::room_for;

// Writes the merge of two texts that were read to the front of `out`, and gives its length. That is known
// before a byte is written, so a refusal leaves the output as it is.
fn write_merge(target: &mut Side, patch: &mut Side, out: &mut [u8]) -> Result<u32, Refused>
    requires { (c : Bytes) × on_sides Merges target.old patch.old 0 (Some 0) 0 c × Fits false c out.old }
    ensures writing { (c : Bytes) → on_sides Merges target.old patch.old 0 (Some 0) 0 c → Writing c out.old (told result) out.new }
    ensures same { (target.new ≡ target.old) × (patch.new ≡ patch.old) }
{
    let n = merge_value(target, Some(0), patch, 0, 0, false, out);
    room_for(n, out)?;
    merge_value(target, Some(0), patch, 0, 0, true, out);
    Ok(n as u32)
}

// Reads `target` and `patch`, fills their tables with their records, writes the canonical text of their
// merge to the front of `out`, and gives its length.
pub fn merge_text(
    target: &[u8],
    olds: &mut [u32],
    patch: &[u8],
    news: &mut [u32],
    out: &mut [u8],
) -> Result<u32, Refused>
    ensures merger { Merger target.now olds.old patch.now news.old out.old (told result) olds.new news.new out.new }
{
    read_text(target, olds, Input::First)?;
    read_text(patch, news, Input::Second)?;
    let mut target = Side {
        text: target,
        table: olds,
    };
    let mut patch = Side {
        text: patch,
        table: news,
    };
    write_merge(&mut target, &mut patch, out)
}
