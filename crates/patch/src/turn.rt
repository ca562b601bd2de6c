// Whose member comes next.
ghost use Rattle.std.specs.Prelude.{◌<◌, ◌≡◌};
ghost use Rattle.std.specs.Ordering.{ordering_index};
ghost use Rattle.members.specs.Names.{Named, name_of};
ghost use Rattle.members.specs.Records.{Room};
ghost use Rattle.patch.specs.Side.{on_view};
ghost use Rattle.patch.specs.Turns.{rest_of, turn_of};

use crate::view::View;
use members::chain::Chain;
use members::link::link;
use members::record::word_at;
use names::compare::compare_from;
use std::cmp::Ordering;

// With the members `a` of the target and `b` of the patch to come: `Less` if the target's comes next,
// `Equal` if both have its name, `Greater` if the patch's does.
pub fn turn(target: View, a: Chain, patch: View, b: Chain) -> Ordering
    requires { (0 < a.count → on_view Named target a.head) × (0 < b.count → on_view Named patch b.head) }
    ensures { ordering_index result ≡ turn_of a.count b.count (on_view name_of target.entry a.head) (on_view name_of patch.entry b.head) }
{
    if b.count == 0 {
        return Ordering::Less;
    }
    if a.count == 0 {
        return Ordering::Greater;
    }
    let p = word_at(target.table, a.head, 2) + 1;
    let q = word_at(patch.table, b.head, 2) + 1;
    compare_from(target.text, p, patch.text, q)
}

// The chain behind the first of `c`.
pub fn rest(table: &[u32], c: Chain) -> Chain
    requires { Room table.now c.head × (0 < c.count) }
    ensures { result ≡ rest_of table.now c }
{
    Chain {
        head: link(table, c.head),
        count: c.count - 1,
    }
}
