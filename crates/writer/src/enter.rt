// Entering a container: its entries in the order in which they are written.
#![tactic(auto, using(crate::proofs::Entered::enters_and_leaves))]

ghost use Rattle.std.specs.Prelude.{◌+◌, ℕ};
ghost use Rattle.members.specs.Chains.{siblings_of};
ghost use Rattle.members.specs.Lists.{In};
ghost use Rattle.members.specs.Records.{Room};
ghost use Rattle.text.specs.Bytes.{Bytes};
ghost use Rattle.writer.specs.Entering.{Cleared, Kept, Opened, opens_object};
ghost use Rattle.writer.specs.Walks.{Ready};
ghost use Rattle.writer.specs.Writes.{Writes};

use members::chain::{Chain, order};
use members::link::clear;
use members::record::next;
use members::siblings::count;

// The entries of the container of record `r`, which `b` opens: those of an object are linked in the order of
// their names.
pub fn enter(text: &[u8], table: &mut [u32], r: usize, b: u8) -> Chain
    requires { Opened text.now table.old r b × ((d : ℕ) × (c : Bytes) × Writes text.now table.old r d c) }
    ensures ready { (d : ℕ) (c : Bytes) → Writes text.now table.old r d c → Ready text.now table.new (d + 1) b result.count result.head c }
    ensures kept { Kept table.old table.new b result.count (r + 1) }
{
    let end = next(table, r);
    if b == b'{' {
        return order(text, table, r + 1, end);
    }
    Chain {
        head: r + 1,
        count: count(table, r + 1, end),
    }
}

// Takes the links of the `n` entries from `first` on away again.
pub fn leave(table: &mut [u32], b: u8, first: usize, n: usize)
    requires { (v : ℕ) → In v (siblings_of table.old n first) → Room table.old v }
    ensures cleared { Cleared (opens_object b) (siblings_of table.old n first) table.old table.new }
{
    if b != b'{' {
        return;
    }
    clear(table, first, n);
}
