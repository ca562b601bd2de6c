// Merge sort on links.
ghost use Rattle.std.specs.Prelude.{◌≤◌, ◌≡◌};
ghost use Rattle.members.specs.Chains.{Free, Linked, after, chain_of, siblings_of};
ghost use Rattle.members.specs.Merging.{turned};
ghost use Rattle.members.specs.Names.{in_order};
ghost use Rattle.members.specs.Records.{max_records, next_of};

use crate::chain::Chain;
use crate::merge::merge;
use crate::record::next;

// A chain, and the sibling behind its records.
#[derive(Clone, Copy)]
pub struct Half {
    pub chain: Chain,
    pub rest: usize,
}

// A chain's head, and the sibling behind its records: two words, since a step of the recursion hands them
// back in registers.
#[derive(Clone, Copy)]
struct Sorted {
    head: usize,
    rest: usize,
}

// The `n` siblings from `first` on become a chain in order, or if not `up` in the opposite order. Each
// half is sorted the other way, since merging turns it round.
fn halved(text: &[u8], table: &mut [u32], up: bool, first: usize, n: usize) -> Sorted
    requires { (1 ≤ n) × (n ≤ max_records) × Free text.now table.old (siblings_of table.old n first) }
    ensures rest { result.rest ≡ after (next_of table.old) n first }
    ensures sorted { Linked (turned up (in_order text.now table.old)) table.old (siblings_of table.old n first) table.new (chain_of table.new n result.head) }
{
    if n == 1 {
        return Sorted {
            head: first,
            rest: next(table, first),
        };
    }
    let count = n / 2;
    let a = halved(text, table, !up, first, count);
    let b = halved(text, table, !up, a.rest, n - count);
    let left = Chain {
        head: a.head,
        count,
    };
    let right = Chain {
        head: b.head,
        count: n - count,
    };
    Sorted {
        head: merge(text, table, !up, left, right).head,
        rest: b.rest,
    }
}

// The `n` siblings from `first` on become a chain in order, or if not `up` in the opposite order.
pub fn sort(text: &[u8], table: &mut [u32], up: bool, first: usize, n: usize) -> Half
    requires { (1 ≤ n) × (n ≤ max_records) × Free text.now table.old (siblings_of table.old n first) }
    ensures counted { result.chain.count ≡ n }
    ensures rest { result.rest ≡ after (next_of table.old) n first }
    ensures sorted { Linked (turned up (in_order text.now table.old)) table.old (siblings_of table.old n first) table.new (chain_of table.new n result.chain.head) }
{
    let s = halved(text, table, up, first, n);
    Half {
        chain: Chain {
            head: s.head,
            count: n,
        },
        rest: s.rest,
    }
}
