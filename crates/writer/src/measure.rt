// The exact length of a canonical text. Order doesn't matter to a length, so one walk over the records is enough.
#![tactic(auto, using(crate::proofs::Weighing::measuring))]

ghost use Rattle.std.specs.Prelude.{◌≤◌, ℕ, length, ◌≡◌};
ghost use Rattle.entries.specs.Answer.{max_text};
ghost use Rattle.meaning.proofs.Weight.{own};
ghost use Rattle.meaning.specs.Meaning.{tree};
ghost use Rattle.text.specs.Bytes.{Bytes};
ghost use Rattle.text.specs.Node.{Node};
ghost use Rattle.values.specs.Held.{Held};
ghost use Rattle.writer.specs.Pending.{Countable, Counts};
ghost use Rattle.writer.specs.Writes.{Writes};

use crate::name::name_length;
use members::record::next;
use reader::value::is_open;
use spell::scalar::scalar_length;
use values::span::{behind, start};

// What the value of record `r` counts apart from what is inside it: all of a scalar; of a container both
// brackets if it is empty, else one byte, since each of its entries counts a comma.
fn own_length(text: &[u8], table: &[u32], r: usize) -> usize
    requires { (length text.now ≤ max_text) × ((v : Node) × Held text.now table.now r v) }
    ensures { (v : Node) → Held text.now table.now r v → result ≡ own (tree v) }
{
    let p = start(table, r);
    let b = text[p];
    if is_open(b) {
        if next(table, r) == r + 1 {
            return 2;
        }
        return 1;
    }
    scalar_length(text, p, behind(table, r))
}

// What record `r` counts as an entry of a container: a comma, its name, and its own part.
fn entry_length(text: &[u8], table: &[u32], r: usize) -> usize
    requires { (length text.now ≤ max_text) × Countable text.now table.now r }
    ensures { Counts text.now table.now r result }
{
    1 + name_length(text, table, r) + own_length(text, table, r)
}

// The length of the canonical text of the value of record `r`.
pub fn needed(text: &[u8], table: &[u32], r: usize) -> usize
    requires { (length text.now ≤ max_text) × ((d : ℕ) × (c : Bytes) × Writes text.now table.now r d c) }
    ensures { (d : ℕ) (c : Bytes) → Writes text.now table.now r d c → result ≡ length c }
{
    let end = next(table, r);
    let mut n = own_length(text, table, r);
    for k in r + 1..end {
        n += entry_length(text, table, k);
    }
    n
}
