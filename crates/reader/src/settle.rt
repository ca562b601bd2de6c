// Names in containers that a refusal left open.
ghost use Rattle.std.specs.Prelude.{length, IsSome, ◌*◌, ◌+◌, ◌≤◌, ◌<◌};
ghost use Rattle.entries.specs.Answer.{max_text};
ghost use Rattle.members.specs.Records.{word_of};
ghost use Rattle.reader.specs.Loop.{Pended};
ghost use Rattle.reader.specs.States.{Settleable, SettledAs};
ghost use Rattle.text.specs.Table.{record_words, unnamed};

use crate::close::close_at;
use crate::fill::State;
use crate::record::put;

// Puts a record for a name whose value never came, if there is one, and gives the number of records.
fn pend(table: &mut [u32], name: Option<usize>, count: usize) -> usize
    requires { (word_of name ≤ unnamed) × (count < unnamed) × (IsSome name → record_words * count + record_words ≤ length table.old) }
    ensures pended { Pended table.old table.new name count result }
{
    if name.is_none() {
        return count;
    }
    put(table, count, 0, 0, name, count + 1);
    count + 1
}

// Closes what is open in `state`, where a reading has stopped, as if it ended there, and gives the first
// repeated name of all objects, if there is one.
pub fn settle(text: &[u8], table: &mut [u32], state: State) -> Option<usize>
    requires { Settleable text.now table.old state × (length text.now ≤ max_text) }
    ensures settled { SettledAs text.now table.old table.new state result }
{
    let count = pend(table, state.name, state.count);
    let mut inner = state.inner;
    let mut first = state.first;
    for d in (0..state.depth).rev() {
        let c = close_at(text, table, inner, 0, count, state.marks[d], first);
        inner = c.around;
        first = c.first;
    }
    first
}
