// Records in the table.
ghost use Rattle.std.specs.Prelude.{drop, get_or, length, replicate, set, ◌++◌, ◌≡◌, ◌*◌, ◌+◌, ◌≤◌};
ghost use Rattle.members.specs.Records.{word_of};
ghost use Rattle.reader.specs.Tokens.{put_at};
ghost use Rattle.text.specs.Table.{record_words, unnamed};

use members::record::{RECORD_WORDS, UNNAMED};

// The word of a name whose opening quote stands at that offset, or of no name.
fn word_of(name: Option<usize>) -> u32
    requires { word_of name ≤ unnamed }
    ensures { result ≡ word_of name }
{
    match name {
        Some(q) => q as u32,
        None => UNNAMED,
    }
}

// Puts the record `n`: a value from `start` to `end`, whose name stands at `name`, if it has one, with
// `next` behind it.
pub fn put(table: &mut [u32], n: usize, start: usize, end: usize, name: Option<usize>, next: usize)
    requires { (record_words * n + record_words ≤ length table.old) × (start ≤ unnamed) × (end ≤ unnamed) × (word_of name ≤ unnamed) × (next ≤ unnamed) }
    ensures { table.new ≡ put_at table.old n start end (word_of name) next }
{
    let p = RECORD_WORDS * n;
    table[p] = start as u32;
    table[p + 1] = end as u32;
    table[p + 2] = word_of(name);
    table[p + 3] = next as u32;
}

// Closes the record `n` of an open container, and gives the number of the record around it.
pub fn close(table: &mut [u32], n: usize, end: usize, next: usize) -> usize
    requires { (record_words * n + record_words ≤ length table.old) × (end ≤ unnamed) × (next ≤ unnamed) }
    ensures around { result ≡ get_or table.old (record_words * n + 3) 0 }
    ensures closed { table.new ≡ set (set table.old (record_words * n + 1) end) (record_words * n + 3) next }
{
    let p = RECORD_WORDS * n;
    let around = table[p + 3] as usize;
    table[p + 1] = end as u32;
    table[p + 3] = next as u32;
    around
}

// Sets the first `n` words to 0.
pub fn clear(table: &mut [u32], n: usize)
    requires { n ≤ length table.old }
    ensures { table.new ≡ replicate n 0 ++ drop n table.old }
{
    table[..n].fill(0);
}
