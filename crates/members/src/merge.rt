// Two sorted chains made one.
ghost use Rattle.std.specs.Prelude.{◌+◌, ◌-◌, ◌<◌, ◌≤◌, not, ◌++◌, ◌≡◌};
ghost use Rattle.members.specs.Chains.{Linked, chain_of};
ghost use Rattle.members.specs.Links.{link_of, with_link};
ghost use Rattle.members.specs.Merging.{Picked, Ready, turned};
ghost use Rattle.members.specs.Names.{Named, in_order};
ghost use Rattle.members.specs.Records.{Room, max_records};

use crate::chain::Chain;
use crate::link::{link, set_link};
use crate::member::in_turn;

// Of two chains, whether the head of the left one comes first.
#[tactic(auto, unfolding(crate::specs::Merging::Picked))]
fn pick(text: &[u8], table: &[u32], up: bool, left: Chain, right: Chain) -> bool
    requires { (0 < left.count + right.count) × (0 < left.count → Named text.now table.now left.head) × (0 < right.count → Named text.now table.now right.head) }
    ensures picked { Picked (turned up (in_order text.now table.now)) left right result }
{
    0 < left.count && (right.count == 0 || in_turn(text, table, up, left.head, right.head))
}

// Puts the head of the chain `c` before the record `d`, and returns what is left of `c`.
fn relink(table: &mut [u32], c: Chain, d: usize) -> Chain
    requires { (0 < c.count) × Room table.old c.head × (d ≤ max_records) }
    ensures left { result ≡ record { head = link_of table.old c.head; count = c.count - 1 } }
    ensures linked { table.new ≡ with_link table.old c.head d }
{
    let head = link(table, c.head);
    set_link(table, c.head, d);
    Chain {
        head,
        count: c.count - 1,
    }
}

// Two chains become one in the opposite order: the lesser head goes to the front of what is done.
pub fn merge(text: &[u8], table: &mut [u32], up: bool, left: Chain, right: Chain) -> Chain
    requires { (left.count + right.count ≤ max_records) × Ready (turned up (in_order text.now table.old)) text.now table.old (chain_of table.old left.count left.head) (chain_of table.old right.count right.head) }
    ensures counted { result.count ≡ left.count + right.count }
    ensures merged { Linked (turned (not up) (in_order text.now table.old)) table.old (chain_of table.old left.count left.head ++ chain_of table.old right.count right.head) table.new (chain_of table.new (left.count + right.count) result.head) }
{
    let count = left.count + right.count;
    let mut x = left;
    let mut y = right;
    let mut d: usize = 0;
    for _ in 0..count {
        if pick(text, table, up, x, y) {
            let rest = relink(table, x, d);
            d = x.head;
            x = rest;
        } else {
            let rest = relink(table, y, d);
            d = y.head;
            y = rest;
        }
    }
    Chain { head: d, count }
}
