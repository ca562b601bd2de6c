// Strings in canonical text. The first bytes are looked at one by one, which is all of most strings. Behind them
// a run of characters that are written plain is found and copied whole; any other character is read and written
// as a unit.
#![tactic(auto, using(crate::proofs::StringLaws::strings))]

ghost use Rattle.std.specs.Prelude.{drop, get_or, length, true, ◌≡◌, ◌*◌, ◌+◌, ◌<◌, ◌≤◌};
ghost use Rattle.entries.specs.Answer.{max_text};
ghost use Rattle.meaning.specs.Canonical.{is_bare};
ghost use Rattle.names.specs.Units.{units};
ghost use Rattle.spell.specs.Puts.{Puts};
ghost use Rattle.spell.specs.Scalars.{quoted};
ghost use Rattle.spell.specs.Strings.{Copied, Plain, ending};

use crate::unit::{is_bare, put_unit, unit_length};
use crate::word::put_word;
use names::unit::unit_at;
use scan::bytes::byte_at;
use scan::eights::{eight, eights};

// How many bytes of a string are looked at one by one at first: most strings are short.
const NEAR: usize = 8;

// Whether the byte of `text` at `i` is written plain.
fn bare_at(text: &[u8], i: usize) -> bool
    requires { i < length text.now }
    ensures { result ≡ is_bare (get_or text.now i 0) }
{
    is_bare(u64::from(text[i]))
}

// The first offset of `text` from `from` on and before `end` whose byte is not written plain, or `end`.
fn plain_before(text: &[u8], from: usize, end: usize) -> usize
    requires { (from ≤ end) × (end ≤ length text.now) }
    ensures plain { Plain text.now from result }
{
    for i in from..end {
        if !bare_at(text, i) {
            return i;
        }
    }
    end
}

// Whether the eight bytes of `text` from `i` on are written plain.
fn plain_eight(text: &[u8], i: usize) -> bool
    requires { i + 8 ≤ length text.now }
    ensures plain { result ≡ true → Plain text.now i (i + 8) }
{
    eight(i, |k| bare_at(text, k))
}

// The first offset of `text`, from `from` on, whose byte is not written plain. The next byte is tested
// before eight are: often the run is empty.
fn bare_run(text: &[u8], from: usize) -> usize
    requires { from ≤ length text.now }
    ensures plain { Plain text.now from result }
{
    if from < text.len() && !bare_at(text, from) {
        return from;
    }
    let i = eights(from, text.len(), |i| plain_eight(text, i));
    plain_before(text, i, text.len())
}

// How many bytes the rest of a string takes, from its character in `text` at `from` up to the closing quote.
fn ending_length(text: &[u8], from: usize) -> usize
    requires { (from ≤ length text.now) × (length text.now ≤ max_text) }
    ensures { (result ≡ length (ending text.now from)) × (result ≤ 6 * max_text + 1) }
{
    let mut i = from;
    let mut n: usize = 0;
    loop {
        let j = bare_run(text, i);
        let Some(u) = unit_at(text, j) else {
            return n + (j - i) + 1;
        };
        n += j - i + unit_length(u.code);
        i = u.next;
    }
}

// The end of the bytes of `text` from `from` on that are looked at one by one.
fn near(text: &[u8], from: usize) -> usize
    requires { from ≤ length text.now }
    ensures { (from ≤ result) × (result ≤ length text.now) }
{
    text.len().min(from + NEAR)
}

// How many bytes the string takes whose opening quote stands in `text` at `q`.
pub fn string_length(text: &[u8], q: usize) -> usize
    requires { (q < length text.now) × (length text.now ≤ max_text) }
    ensures { result ≡ length (quoted (units (drop (q + 1) text.now))) }
{
    let i = plain_before(text, q + 1, near(text, q + 1));
    if byte_at(text, i) == b'"' {
        return i - q + 1;
    }
    i - q + ending_length(text, i)
}

// Writes bytes of `text` from `from` on and before `end` to the front of `out` as long as they are written
// plain, and returns how many.
#[tactic(auto, using(crate::proofs::StringLaws::copies))]
fn put_plain(text: &[u8], from: usize, end: usize, out: &mut [u8]) -> usize
    requires { (from ≤ end) × (end ≤ length text.now) × (length (ending text.now from) ≤ length out.old) }
    ensures put { Copied text.now from (from + result) out.old result out.new }
{
    for i in from..end {
        if !bare_at(text, i) {
            return i - from;
        }
        out[i - from] = text[i];
    }
    end - from
}

// Writes the rest of a string, from its character in `text` at `from` up to the closing quote, to the front of
// `out`, and returns how many bytes it takes.
fn put_ending(text: &[u8], from: usize, out: &mut [u8]) -> usize
    requires { (from ≤ length text.now) × (length (ending text.now from) ≤ length out.old) }
    ensures put { Puts (ending text.now from) out.old result out.new }
{
    let mut i = from;
    let mut p: usize = 0;
    loop {
        let j = bare_run(text, i);
        p += put_word(&text[i..j], &mut out[p..]);
        let Some(u) = unit_at(text, j) else {
            out[p] = b'"';
            return p + 1;
        };
        p += put_unit(u.code, &mut out[p..]);
        i = u.next;
    }
}

// Writes the string whose opening quote stands in `text` at `q` to the front of `out`, and returns how many
// bytes it takes.
pub fn put_string(text: &[u8], q: usize, out: &mut [u8]) -> usize
    requires { (q < length text.now) × (length (quoted (units (drop (q + 1) text.now))) ≤ length out.old) }
    ensures put { Puts (quoted (units (drop (q + 1) text.now))) out.old result out.new }
{
    out[0] = b'"';
    let n = put_plain(text, q + 1, near(text, q + 1), &mut out[1..]);
    let i = q + 1 + n;
    let p = 1 + n;
    if byte_at(text, i) == b'"' {
        out[p] = b'"';
        return p + 1;
    }
    p + put_ending(text, i, &mut out[p..])
}
