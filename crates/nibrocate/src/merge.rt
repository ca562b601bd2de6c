// The merge patch.
ghost use Rattle.entries.specs.Entries.{Merger};
ghost use Rattle.reader.specs.Answers.{answer_of};

use patch::merge::merge_text;
use reader::answer::Answer;

// Reads `target` and `patch` as `read` does and writes the canonical text of their merge to the front of
// `out`; the count is the number of bytes written.
pub fn merge(
    target: &[u8],
    target_table: &mut [u32],
    patch: &[u8],
    patch_table: &mut [u32],
    out: &mut [u8],
) -> Answer
    ensures merger { Merger target.now target_table.old patch.now patch_table.old out.old (answer_of result) target_table.new patch_table.new out.new }
{
    merge_text(target, target_table, patch, patch_table, out).into()
}
