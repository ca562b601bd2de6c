// Values without values inside them in canonical text. The first byte says which kind a value is of.
#![tactic(auto, using(crate::proofs::Openings::texts))]

ghost use Rattle.std.specs.Prelude.{length, [], ◌≡◌, ◌<◌, ◌≤◌};
ghost use Rattle.entries.specs.Answer.{max_text};
ghost use Rattle.meaning.specs.Canonical.{put};
ghost use Rattle.meaning.specs.Meaning.{Tree};
ghost use Rattle.spell.specs.Puts.{Puts};
ghost use Rattle.spell.specs.Scalars.{Scalar};

use crate::number::{number_length, put_number};
use crate::string::{put_string, string_length};
use crate::word::put_word;

// How many bytes the value takes that stands in `text` from `at` up to `end`.
pub fn scalar_length(text: &[u8], at: usize, end: usize) -> usize
    requires { (at < length text.now) × (length text.now ≤ max_text) × ((v : Tree) × Scalar text.now at end v) }
    ensures { (v : Tree) → Scalar text.now at end v → result ≡ length (put v []) }
{
    match text[at] {
        b'"' => string_length(text, at),
        b't' => 4,
        b'f' => 5,
        b'n' => 4,
        _ => number_length(&text[at..end]),
    }
}

// Writes the value that stands in `text` from `at` up to `end` to the front of `out`, and returns how many bytes
// it takes.
pub fn put_scalar(text: &[u8], at: usize, end: usize, out: &mut [u8]) -> usize
    requires { (at < length text.now) × ((v : Tree) × Scalar text.now at end v × (length (put v []) ≤ length out.old)) }
    ensures put { (v : Tree) → Scalar text.now at end v → Puts (put v []) out.old result out.new }
{
    match text[at] {
        b'"' => put_string(text, at, out),
        b't' => put_word(b"true", out),
        b'f' => put_word(b"false", out),
        b'n' => put_word(b"null", out),
        _ => put_number(&text[at..end], out),
    }
}
