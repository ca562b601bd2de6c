// The loop over the tokens of a text.
ghost use Rattle.std.specs.Prelude.{length, ◌*◌, ◌≤◌, ◌≡◌};
ghost use Rattle.entries.specs.Answer.{max_text};
ghost use Rattle.reader.specs.States.{StoppedAs, stopped_as};
ghost use Rattle.text.specs.Table.{record_words};

use crate::close::close_at;
use crate::entry::entry_at;
use crate::value::{Value, value_at};
use scan::refusal::Refusal;
use scan::space::skip;

// The reader's state: the containers that are open, by their brackets, the outermost first. Where the
// reading has stopped it also says what is refused, unless the text was read to its end; how many records
// are written, and which is that of the innermost open container; the name of a value that is due, and
// the first repeated name of the objects that are closed.
#[derive(Clone, Copy)]
pub struct State {
    pub depth: usize,
    pub marks: [u8; 64],
    pub refusal: Option<Refusal>,
    pub count: usize,
    pub inner: usize,
    pub name: Option<usize>,
    pub first: Option<usize>,
}

// The state of a reading that has stopped.
fn stopped(
    state: State,
    refusal: Option<Refusal>,
    name: Option<usize>,
    count: usize,
    inner: usize,
    first: Option<usize>,
) -> State
    ensures { result ≡ stopped_as state refusal name count inner first }
{
    State {
        refusal,
        name,
        count,
        inner,
        first,
        ..state
    }
}

// Reads `text` and fills `table`, up to its end or to what no text has there. Names that stand twice are
// left for later. One loop over the tokens keeps its state in locals: to hand it on between functions
// would make it slower by far.
pub fn fill(text: &[u8], table: &mut [u32]) -> State
    requires { (length text.now ≤ max_text) × (record_words * length text.now ≤ length table.old) }
    ensures stopped { StoppedAs text.now table.old table.new result }
{
    let mut state = State {
        depth: 0,
        marks: [0u8; 64],
        refusal: None,
        count: 0,
        inner: 0,
        name: None,
        first: None,
    };
    let mut inner: usize = 0;
    let mut count: usize = 0;
    let mut name: Option<usize> = None;
    let mut first: Option<usize> = None;
    let mut due = true;
    let mut i = skip(text, 0);
    while i < text.len() {
        let b = text[i];
        let d = state.depth;
        if due {
            match value_at(text, table, i, name, count, inner, d) {
                Err(e) => return stopped(state, Some(e), name, count, inner, first),
                Ok(Value::Whole(p)) => {
                    i = p;
                    count += 1;
                    due = false;
                    continue;
                }
                Ok(Value::Opened(p)) => {
                    inner = count;
                    count += 1;
                    state.marks[d] = b;
                    state.depth = d + 1;
                    let entry = entry_at(text, p, b);
                    name = entry.name;
                    i = match entry.due {
                        Ok(at) => at,
                        Err(e) => return stopped(state, Some(e), name, count, inner, first),
                    };
                    continue;
                }
            }
        }
        if d == 0 {
            return stopped(state, Some(Refusal::Wrong(i)), None, count, inner, first);
        }
        let m = state.marks[d - 1];
        if b == b',' {
            let entry = entry_at(text, skip(text, i + 1), m);
            name = entry.name;
            i = match entry.due {
                Ok(at) => at,
                Err(e) => return stopped(state, Some(e), name, count, inner, first),
            };
            due = true;
            continue;
        }
        if b != m + 2 {
            return stopped(state, Some(Refusal::Wrong(i)), None, count, inner, first);
        }
        let c = close_at(text, table, inner, i + 1, count, m, first);
        inner = c.around;
        first = c.first;
        state.depth = d - 1;
        i = skip(text, i + 1);
    }
    if due {
        return stopped(state, Some(Refusal::Short(i)), name, count, inner, first);
    }
    if state.depth == 0 {
        return stopped(state, None, None, count, inner, first);
    }
    stopped(state, Some(Refusal::Short(i)), None, count, inner, first)
}
