// The first repeated name of an object.
ghost use Rattle.std.specs.Prelude.{◌≤◌, ℕ, IfSome, List, ◌≡◌};
ghost use Rattle.members.specs.Chains.{Seats, chain_of, siblings_of};
ghost use Rattle.members.specs.Lists.{Sorted};
ghost use Rattle.members.specs.Names.{Named, in_order, name_of};
ghost use Rattle.members.specs.Repeats.{Earliest, FirstRepeat};
ghost use Rattle.members.specs.Rows.{Row, named};
ghost use Rattle.members.specs.Searches.{better};
ghost use Rattle.members.specs.Siblings.{Siblings};
ghost use Rattle.text.specs.Table.{unnamed};

use crate::chain::Chain;
use crate::link::{clear, link};
use crate::member::same_name;
use crate::pairs::by_pairs;
use crate::record::{next, word_at};
use crate::siblings::{ascending, count};
use crate::sort::sort;

// Up to so many members are compared each with each.
const FEW: usize = 8;

// The lesser of `best` and `q` if the records `p` and `q` have the same name, else `best`.
fn better(text: &[u8], table: &[u32], best: Option<usize>, p: usize, q: usize) -> Option<usize>
    requires { Named text.now table.now p × Named text.now table.now q }
    ensures { result ≡ better (name_of text.now table.now) best p q }
{
    if !same_name(text, table, p, q) {
        return best;
    }
    Some(best.map_or(q, |b| b.min(q)))
}

// In the sorted chain `c`: the least record that has the name of a lesser one.
// Equal names are neighbours there, the lesser record first.
fn neighbours(text: &[u8], table: &[u32], c: Chain) -> Option<usize>
    requires { (1 ≤ c.count) × Seats text.now table.now (chain_of table.now c.count c.head) × Sorted (in_order text.now table.now) (chain_of table.now c.count c.head) }
    ensures { Earliest (name_of text.now table.now) (chain_of table.now c.count c.head) result }
{
    let mut best = None;
    let mut p = c.head;
    for _ in 1..c.count {
        let q = link(table, p);
        best = better(text, table, best, p, q);
        p = q;
    }
    best
}

// The first of the `n` siblings from `first` on that has the name of an earlier one: found in their chain in
// order, whose links are taken away again.
fn by_sorting(text: &[u8], table: &mut [u32], first: usize, n: usize) -> Option<usize>
    requires { (1 ≤ n) × ((end : ℕ) × Row text.now table.old first end × Siblings table.old end first (siblings_of table.old n first)) }
    ensures earliest { Earliest (name_of text.now table.old) (siblings_of table.old n first) result }
    ensures same { table.new ≡ table.old }
{
    let c = sort(text, table, true, first, n).chain;
    let z = neighbours(text, table, c);
    clear(table, first, n);
    z
}

// The first of the siblings from `first` up to `end` that has the name of an earlier one: by pairs if they
// are few, at once if their names ascend.
fn earliest(text: &[u8], table: &mut [u32], first: usize, end: usize) -> Option<usize>
    requires { Row text.now table.old first end }
    ensures earliest { (l : List ℕ) → Siblings table.old end first l → Earliest (name_of text.now table.old) l result }
    ensures same { table.new ≡ table.old }
{
    let n = count(table, first, end);
    if n <= FEW {
        return by_pairs(text, table, first, end);
    }
    if ascending(text, table, first, n) {
        return None;
    }
    by_sorting(text, table, first, n)
}

// The offset of the opening quote of the first name, among the siblings from `first` up to `end`, that an
// earlier one has. The table is as it was.
pub fn first_repeat(text: &[u8], table: &mut [u32], first: usize, end: usize) -> Option<usize>
    requires { Row text.now table.old first end }
    ensures repeated { (l : List ℕ) → Siblings table.old end first l → FirstRepeat text.now (named table.old l) result }
    ensures small { IfSome result (λ q. q ≤ unnamed) }
    ensures same { table.new ≡ table.old }
{
    if end <= first || end <= next(table, first) {
        return None;
    }
    let z = earliest(text, table, first, end)?;
    Some(word_at(table, z, 2))
}
