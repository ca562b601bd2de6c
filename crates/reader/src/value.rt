// Values: those that hold no others are read whole, the others are opened.
ghost use Rattle.std.specs.Prelude.{get_or, length, false, true, ◌≡◌, ◌*◌, ◌+◌, ◌≤◌, ◌<◌};
ghost use Rattle.members.specs.Records.{word_of};
ghost use Rattle.reader.specs.Tokens.{ScalarAt, ValueAt, brace, bracket, opens_container};
ghost use Rattle.scan.specs.Numbers.{opens_number};
ghost use Rattle.text.specs.Bytes.{is_space};
ghost use Rattle.text.specs.Table.{record_words, unnamed};

use crate::limits::MAX_DEPTH;
use crate::record::put;
use scan::bytes::{byte_at, opens_number};
use scan::number::number_at;
use scan::refusal::Refusal;
use scan::space::skip;
use scan::string::string_at;
use scan::word::word_at;

// A value that is read whole, or a container that opens and holds something, with the offset where the
// text goes on.
#[derive(Clone, Copy, Debug, PartialEq, Eq)]
pub enum Value {
    Whole(usize),
    Opened(usize),
}

// Reads the number of `text` that begins at `i`.
fn numeral_at(text: &[u8], i: usize) -> Result<usize, Refusal>
    requires { (i < length text.now) × (opens_number (get_or text.now i 0) ≡ true) }
    ensures read { ScalarAt text.now i result }
{
    let answer = number_at(text, i);
    let Ok(w) = answer else {
        return answer.map(|w| w.end);
    };
    Ok(w.end)
}

// Reads the literal, string or number of `text` that begins at `i`.
fn scalar_at(text: &[u8], i: usize) -> Result<usize, Refusal>
    requires { (i < length text.now) × (is_space (get_or text.now i 0) ≡ false) × (get_or text.now i 0 ≡ bracket → ⊥) × (get_or text.now i 0 ≡ brace → ⊥) }
    ensures read { ScalarAt text.now i result }
{
    let b = text[i];
    if b == b'"' {
        return string_at(text, i + 1);
    }
    if opens_number(b) {
        return numeral_at(text, i);
    }
    if b == b'n' {
        return word_at(text, i, b"null");
    }
    if b == b't' {
        return word_at(text, i, b"true");
    }
    if b == b'f' {
        return word_at(text, i, b"false");
    }
    Err(Refusal::Wrong(i))
}

// Whether `b` opens a container.
pub fn is_open(b: u8) -> bool
    ensures { result ≡ opens_container b }
{
    (b == b'[') | (b == b'{')
}

// The same as `value_at`, of a container, whose closing bracket is its opening one plus 2.
fn container_at(
    text: &[u8],
    table: &mut [u32],
    i: usize,
    name: Option<usize>,
    n: usize,
    around: usize,
    depth: usize,
) -> Result<Value, Refusal>
    requires { (i < length text.now) × (opens_container (get_or text.now i 0) ≡ true) × (length text.now < unnamed) × (record_words * n + record_words ≤ length table.old) × (n < unnamed) × (word_of name ≤ unnamed) × (around ≤ unnamed) }
    ensures read { ValueAt text.now table.old table.new i name n around depth result }
{
    if MAX_DEPTH <= depth {
        return Err(Refusal::Deep(i));
    }
    let j = skip(text, i + 1);
    if byte_at(text, j) != text[i] + 2 {
        put(table, n, i, 0, name, around);
        return Ok(Value::Opened(j));
    }
    put(table, n, i, j + 1, name, n + 1);
    Ok(Value::Whole(skip(text, j + 1)))
}

// Reads the value of `text` that begins at `i`, inside `depth` open containers, the innermost of which
// has the record `around`, and puts its record `n`. A container that holds something is only opened.
pub fn value_at(
    text: &[u8],
    table: &mut [u32],
    i: usize,
    name: Option<usize>,
    n: usize,
    around: usize,
    depth: usize,
) -> Result<Value, Refusal>
    requires { (i < length text.now) × (is_space (get_or text.now i 0) ≡ false) × (length text.now < unnamed) × (record_words * n + record_words ≤ length table.old) × (n < unnamed) × (word_of name ≤ unnamed) × (around ≤ unnamed) }
    ensures read { ValueAt text.now table.old table.new i name n around depth result }
{
    if is_open(text[i]) {
        return container_at(text, table, i, name, n, around, depth);
    }
    let end = scalar_at(text, i)?;
    put(table, n, i, end, name, n + 1);
    Ok(Value::Whole(skip(text, end)))
}
