// The members of an object as a chain in the order of their names.
ghost use Rattle.members.specs.Chains.{Linked, chain_of, siblings_of};
ghost use Rattle.members.specs.Names.{in_order};
ghost use Rattle.members.specs.Rows.{Row};
ghost use Rattle.members.specs.Siblings.{Siblings};

use crate::link::link_along;
use crate::siblings::{ascending, count};
use crate::sort::sort;

// A chain of `count` records, each but the first found by the link of the one before.
#[derive(Clone, Copy)]
pub struct Chain {
    pub head: usize,
    pub count: usize,
}

// The siblings from `first` up to `end` become a chain in order, in linear time where their names
// ascend as they stand.
pub fn order(text: &[u8], table: &mut [u32], first: usize, end: usize) -> Chain
    requires { Row text.now table.old first end }
    ensures counted { Siblings table.old end first (siblings_of table.old result.count first) }
    ensures linked { Linked (in_order text.now table.old) table.old (siblings_of table.old result.count first) table.new (chain_of table.new result.count result.head) }
{
    let n = count(table, first, end);
    if ascending(text, table, first, n) {
        link_along(table, first, n);
        return Chain {
            head: first,
            count: n,
        };
    }
    sort(text, table, true, first, n).chain
}
