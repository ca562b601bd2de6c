// Passes over the siblings as they stand.
ghost use Rattle.std.specs.Prelude.{◌*◌, ◌≤◌, ℕ, length, false, true, List, ◌≡◌};
ghost use Rattle.members.specs.Chains.{Seats, siblings_of};
ghost use Rattle.members.specs.Lists.{Sorted};
ghost use Rattle.members.specs.Names.{ahead, name_of};
ghost use Rattle.members.specs.Siblings.{Siblings};
ghost use Rattle.text.specs.Table.{record_words};

use crate::member::order_of;
use crate::record::next;
use crate::walk::siblings;

// How many siblings stand from `first` up to `end`.
pub fn count(table: &[u32], first: usize, end: usize) -> usize
    requires { (record_words * end ≤ length table.now) × ((l : List ℕ) × Siblings table.now end first l) }
    ensures counted { Siblings table.now end first (siblings_of table.now result first) }
{
    siblings(table, first, end).count()
}

// Whether the names of the `n` siblings from `first` on ascend, each strictly.
pub fn ascending(text: &[u8], table: &[u32], first: usize, n: usize) -> bool
    requires { Seats text.now table.now (siblings_of table.now n first) }
    ensures sorted { result ≡ true → Sorted (ahead (name_of text.now table.now)) (siblings_of table.now n first) }
    ensures some { result ≡ false → 1 ≤ n }
{
    let mut p = first;
    for _ in 1..n {
        let q = next(table, p);
        if order_of(text, table, p, q).is_ge() {
            return false;
        }
        p = q;
    }
    true
}
