// The look-up as a part of the text.
ghost use Rattle.std.specs.Prelude.{ℕ};
ghost use Rattle.entries.specs.Entries.{PartFinder};
ghost use Rattle.entries.specs.Parts.{PartOf};

use lookup::part::part_text;

// The bytes of the value that `pointer` names in `text`, without a copy; the empty part on any refusal.
pub fn part<'a>(text: &'a [u8], table: &mut [u32], pointer: &[u8]) -> &'a [u8]
    ensures part { (a : ℕ) × (e : ℕ) × PartFinder text.now table.old pointer.now a e table.new × PartOf text.entry a e result }
{
    let p = part_text(text, table, pointer);
    let start = p.start;
    let end = p.end;
    &text[start..end]
}
