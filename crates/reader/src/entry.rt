// What stands before a value in its container: nothing in an array, a name and its colon in an object.
ghost use Rattle.std.specs.Prelude.{length, ◌≡◌, ◌≤◌, ◌<◌};
ghost use Rattle.reader.specs.Tokens.{EntryAt, brace, bracket};
ghost use Rattle.scan.specs.Space.{Dense};

use scan::bytes::byte_at;
use scan::refusal::Refusal;
use scan::space::skip;
use scan::string::string_at;

// The opening quote of the name that was read, if one was; and where the value is due, or a refusal.
#[derive(Clone, Copy)]
pub struct Entry {
    pub name: Option<usize>,
    pub due: Result<usize, Refusal>,
}

// The refusal of what stands at `i`: the text ends there, or a wrong byte stands there.
fn missing(text: &[u8], i: usize) -> Refusal
    ensures short { length text.now ≤ i → result ≡ Refusal.Short i }
    ensures wrong { i < length text.now → result ≡ Refusal.Wrong i }
{
    if text.len() <= i {
        return Refusal::Short(i);
    }
    Refusal::Wrong(i)
}

// Reads a name whose opening quote is due in `text` at `i`, and its colon.
fn member_at(text: &[u8], i: usize) -> Entry
    requires { (i ≤ length text.now) × Dense text.now i }
    ensures read { EntryAt text.now i (brace) result.name result.due }
{
    if byte_at(text, i) != b'"' {
        return Entry {
            name: None,
            due: Err(missing(text, i)),
        };
    }
    let at = match string_at(text, i + 1) {
        Ok(at) => at,
        Err(refusal) => {
            return Entry {
                name: None,
                due: Err(refusal),
            };
        }
    };
    let j = skip(text, at);
    if byte_at(text, j) != b':' {
        return Entry {
            name: Some(i),
            due: Err(missing(text, j)),
        };
    }
    Entry {
        name: Some(i),
        due: Ok(skip(text, j + 1)),
    }
}

// Reads what stands in `text` at `i` before a value, in a container with the bracket `kind`.
pub fn entry_at(text: &[u8], i: usize, kind: u8) -> Entry
    requires { (i ≤ length text.now) × Dense text.now i × ((kind ≡ brace → ⊥) → kind ≡ bracket) }
    ensures read { EntryAt text.now i kind result.name result.due }
{
    if kind == b'{' {
        return member_at(text, i);
    }
    Entry {
        name: None,
        due: Ok(i),
    }
}
