// The first repeated name of few members, by comparing each with each.
ghost use Rattle.std.specs.Prelude.{ℕ, List};
ghost use Rattle.members.specs.Names.{Named, name_of};
ghost use Rattle.members.specs.Repeats.{Earliest};
ghost use Rattle.members.specs.Rows.{Row};
ghost use Rattle.members.specs.Searches.{Seen};
ghost use Rattle.members.specs.Siblings.{Siblings};

use crate::member::same_name;
use crate::walk::siblings;

// Whether a sibling from `first` on, before record `r`, has the name of `r`.
fn seen_before(text: &[u8], table: &[u32], first: usize, r: usize) -> bool
    requires { Row text.now table.now first r × Named text.now table.now r }
    ensures seen { (l : List ℕ) → Siblings table.now r first l → Seen (name_of text.now table.now) l r result }
{
    siblings(table, first, r).any(|p| same_name(text, table, p, r))
}

// The first of the siblings from `first` up to `end` that has the name of an earlier one.
pub fn by_pairs(text: &[u8], table: &[u32], first: usize, end: usize) -> Option<usize>
    requires { Row text.now table.now first end }
    ensures earliest { (l : List ℕ) → Siblings table.now end first l → Earliest (name_of text.now table.now) l result }
{
    siblings(table, first, end).find(|r| seen_before(text, table, first, *r))
}
