// The name of a record, with its colon, where it has one.
#![tactic(auto, using(crate::proofs::Bounds::quoted_most), unfolding(crate::specs::Writes::named))]

ghost use Rattle.std.specs.Prelude.{◌≤◌, length, ◌≡◌};
ghost use Rattle.entries.specs.Answer.{max_text};
ghost use Rattle.members.specs.Records.{Room, word};
ghost use Rattle.spell.specs.Puts.{Puts};
ghost use Rattle.writer.specs.Writes.{Nameable, named};

use members::record::quote;
use spell::string::{put_string, string_length};

// The length of what `put_name` writes.
pub fn name_length(text: &[u8], table: &[u32], r: usize) -> usize
    requires { Room table.now r × (length text.now ≤ max_text) × Nameable text.now (word table.now r 2) }
    ensures { result ≡ length (named text.now (word table.now r 2)) }
{
    let Some(q) = quote(table, r) else {
        return 0;
    };
    string_length(text, q) + 1
}

// Writes the name of record `r` and a colon to the front of `out`, or nothing if it has no name.
pub fn put_name(text: &[u8], table: &[u32], r: usize, out: &mut [u8]) -> usize
    requires { Room table.now r × Nameable text.now (word table.now r 2) × (length (named text.now (word table.now r 2)) ≤ length out.old) }
    ensures put { Puts (named text.now (word table.now r 2)) out.old result out.new }
{
    let Some(q) = quote(table, r) else {
        return 0;
    };
    let n = put_string(text, q, out);
    out[n] = b':';
    n + 1
}
