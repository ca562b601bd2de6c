// Strings.
ghost use Rattle.std.specs.Prelude.{◌+◌, ◌≤◌, true, ◌≡◌, length};
ghost use Rattle.scan.specs.Strings.{EscapeAt, FourAt, Goes, HexAt, Hexed, NotPlain, Read, ReadTo, StringAt, four};

use crate::bytes::{byte_at, is_escape, is_hex, is_plain};
use crate::eights::{eight, eights};
use crate::refusal::Refusal;

// Whether eight plain characters stand in `text` from `i` on.
fn plain_eight(text: &[u8], i: usize) -> bool
    requires { i + 8 ≤ length text.now }
    ensures read { result ≡ true → Read text.now i (i + 8) }
{
    eight(i, |k| is_plain(text[k]))
}

// The first offset of `text`, from `from` on, where no plain character stands.
fn plain_run(text: &[u8], from: usize) -> usize
    requires { from ≤ length text.now }
    ensures read { ReadTo text.now from result }
    ensures stops { NotPlain text.now result }
{
    if !is_plain(byte_at(text, from)) {
        return from;
    }
    for i in eights(from, text.len(), |i| plain_eight(text, i))..text.len() {
        if !is_plain(text[i]) {
            return i;
        }
    }
    text.len()
}

// Refuses what stands in `text` at `i`, unless it is a hexadecimal digit.
fn hex_at(text: &[u8], i: usize) -> Result<(), Refusal>
    ensures read { HexAt text.now i result }
{
    if text.len() <= i {
        return Err(Refusal::Short(i));
    }
    if is_hex(text[i]) {
        return Ok(());
    }
    Err(Refusal::Wrong(i))
}

// Whether four hexadecimal digits stand in `text` from `i` on.
fn four_hex(text: &[u8], i: usize) -> bool
    requires { i + 4 ≤ length text.now }
    ensures read { result ≡ true → Goes text.now Hexed four i (i + 4) }
{
    is_hex(text[i]) & is_hex(text[i + 1]) & is_hex(text[i + 2]) & is_hex(text[i + 3])
}

// Reads the four digits of a `\u`, which stand in `text` from `i` on.
fn four_at(text: &[u8], i: usize) -> Result<usize, Refusal>
    requires { i ≤ length text.now }
    ensures read { FourAt text.now i result }
{
    if 4 <= text.len() - i && four_hex(text, i) {
        return Ok(i + 4);
    }
    four_each(text, i)
}

// The same, digit by digit.
fn four_each(text: &[u8], i: usize) -> Result<usize, Refusal>
    requires { i ≤ length text.now }
    ensures read { FourAt text.now i result }
{
    hex_at(text, i)?;
    hex_at(text, i + 1)?;
    hex_at(text, i + 2)?;
    hex_at(text, i + 3)?;
    Ok(i + 4)
}

// Reads what stands in `text` behind a backslash, from `i` on.
fn escape_at(text: &[u8], i: usize) -> Result<usize, Refusal>
    requires { i ≤ length text.now }
    ensures read { EscapeAt text.now i result }
{
    if text.len() <= i {
        return Err(Refusal::Short(i));
    }
    let b = text[i];
    if is_escape(b) {
        return Ok(i + 1);
    }
    if b != b'u' {
        return Err(Refusal::Wrong(i));
    }
    four_at(text, i + 1)
}

// Reads a string of `text`; `from` is the offset behind its opening quote.
pub fn string_at(text: &[u8], from: usize) -> Result<usize, Refusal>
    requires { from ≤ length text.now }
    ensures read { StringAt text.now from result }
{
    let mut i = plain_run(text, from);
    while i < text.len() {
        match text[i] {
            b'"' => return Ok(i + 1),
            b'\\' => i = plain_run(text, escape_at(text, i + 1)?),
            0..128 => return Err(Refusal::Wrong(i)),
            _ => return Err(Refusal::High(i)),
        }
    }
    Err(Refusal::Short(i))
}
