// Links between records, kept above the offsets in words 0 and 1.
ghost use Rattle.std.specs.Prelude.{◌≤◌, ℕ, cond, ◌≡◌};
ghost use Rattle.members.specs.Chains.{siblings_of};
ghost use Rattle.members.specs.Links.{Laid, link_of, with_link};
ghost use Rattle.members.specs.Lists.{In};
ghost use Rattle.members.specs.Records.{Room, max_records, next_of};

use crate::record::{RECORD_WORDS, next, word_at};

// Offsets are below this; what a word holds above it is for links.
pub const LOW_PART: usize = 2097152;

// A link's remainder by this stands in word 0, its quotient in word 1.
const LINK_PART: usize = 2048;

// The link of record `r`.
#[tactic(auto, unfolding(crate::specs::Links::link_of))]
pub fn link(table: &[u32], r: usize) -> usize
    requires { Room table.now r }
    ensures { result ≡ link_of table.now r }
{
    word_at(table, r, 0) / LOW_PART + word_at(table, r, 1) / LOW_PART * LINK_PART
}

// Sets the link of record `r` to `v`.
#[tactic(auto, unfolding(crate::specs::Links::with_link))]
pub fn set_link(table: &mut [u32], r: usize, v: usize)
    requires { Room table.old r × (v ≤ max_records) }
    ensures { table.new ≡ with_link table.old r v }
{
    let a = word_at(table, r, 0) % LOW_PART + v % LINK_PART * LOW_PART;
    let b = word_at(table, r, 1) % LOW_PART + v / LINK_PART * LOW_PART;
    table[RECORD_WORDS * r] = a as u32;
    table[RECORD_WORDS * r + 1] = b as u32;
}

// Sets the links of the `n` siblings from `first` on: to the next one if `along`, else to 0.
fn lay(table: &mut [u32], along: bool, first: usize, n: usize)
    requires { (v : ℕ) → In v (siblings_of table.old n first) → Room table.old v × (cond along (next_of table.old v) 0 ≤ max_records) }
    ensures laid { Laid (λ v. cond along (next_of table.old v) 0) (siblings_of table.old n first) table.old table.new }
{
    let mut r = first;
    for _ in 0..n {
        let z = next(table, r);
        set_link(table, r, if along { z } else { 0 });
        r = z;
    }
}

// Takes the links of the `n` siblings from `first` on away.
pub fn clear(table: &mut [u32], first: usize, n: usize)
    requires { (v : ℕ) → In v (siblings_of table.old n first) → Room table.old v }
    ensures cleared { Laid (λ _. 0) (siblings_of table.old n first) table.old table.new }
{
    lay(table, false, first, n);
}

// Links the `n` siblings from `first` on as they stand.
pub fn link_along(table: &mut [u32], first: usize, n: usize)
    requires { (v : ℕ) → In v (siblings_of table.old n first) → Room table.old v × (next_of table.old v ≤ max_records) }
    ensures linked { Laid (next_of table.old) (siblings_of table.old n first) table.old table.new }
{
    lay(table, true, first, n);
}
