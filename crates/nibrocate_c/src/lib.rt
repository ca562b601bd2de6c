// Nibrocate's public entries for C, and so for Rust: those of the crate `nibrocate`, with the same promises, under the
// names that `include/nibrocate.h` declares.
#![tactic(auto)]

ghost use Rattle.entries.specs.Entries.{Finder, Merger, PartFinder, Reader, Writer};
ghost use Rattle.reader.specs.Answers.{answer_of};

use lookup::part::{Part, part_text};
use nibrocate::find::find;
use nibrocate::merge::merge;
use nibrocate::read::read;
use nibrocate::write::write;
use reader::answer::Answer;

// `nibrocate::read::read`.
#[unsafe(no_mangle)]
pub extern "C" fn nib_read(text: &[u8], table: &mut [u32]) -> Answer
    ensures reader { Reader text.now table.old (answer_of result) table.new }
{
    read(text, table)
}

// `nibrocate::write::write`.
#[unsafe(no_mangle)]
pub extern "C" fn nib_write(text: &[u8], table: &mut [u32], out: &mut [u8]) -> Answer
    ensures writer { Writer text.now table.old out.old (answer_of result) table.new out.new }
{
    write(text, table, out)
}

// `nibrocate::find::find`.
#[unsafe(no_mangle)]
pub extern "C" fn nib_find(text: &[u8], table: &mut [u32], pointer: &[u8]) -> Answer
    ensures finder { Finder text.now table.old pointer.now (answer_of result) table.new }
{
    find(text, table, pointer)
}

// `nibrocate::part::part`, by its offsets.
#[unsafe(no_mangle)]
pub extern "C" fn nib_part_of(text: &[u8], table: &mut [u32], pointer: &[u8]) -> Part
    ensures part { PartFinder text.now table.old pointer.now result.start result.end table.new }
{
    part_text(text, table, pointer)
}

// `nibrocate::merge::merge`.
#[unsafe(no_mangle)]
pub extern "C" fn nib_merge(
    target: &[u8],
    target_table: &mut [u32],
    patch: &[u8],
    patch_table: &mut [u32],
    out: &mut [u8],
) -> Answer
    ensures merger { Merger target.now target_table.old patch.now patch_table.old out.old (answer_of result) target_table.new patch_table.new out.new }
{
    merge(target, target_table, patch, patch_table, out)
}
