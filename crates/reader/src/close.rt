// Containers that close.
ghost use Rattle.std.specs.Prelude.{length, ◌≤◌};
ghost use Rattle.entries.specs.Answer.{max_text};
ghost use Rattle.reader.specs.Loop.{Closable, ClosedAt};

use crate::record::close;
use members::repeat::first_repeat;

// The record around a container that was closed, and the first repeated name of all closed objects, if
// there is one.
#[derive(Clone, Copy)]
pub struct Closed {
    pub around: usize,
    pub first: Option<usize>,
}

// Closes the record `inner` of a container with the bracket `kind` that ends at `end`, as the last of
// `count` records; `first` is the first repeated name of the objects closed before.
pub fn close_at(
    text: &[u8],
    table: &mut [u32],
    inner: usize,
    end: usize,
    count: usize,
    kind: u8,
    first: Option<usize>,
) -> Closed
    requires { Closable text.now table.old inner count kind first × (length text.now ≤ max_text) × (end ≤ length text.now) }
    ensures closed { ClosedAt text.now table.old table.new inner end count kind first result.around result.first }
{
    let around = close(table, inner, end, count);
    if kind != b'{' {
        return Closed { around, first };
    }
    let Some(q) = first_repeat(text, table, inner + 1, count) else {
        return Closed { around, first };
    };
    Closed {
        around,
        first: Some(first.map_or(q, |p| p.min(q))),
    }
}
