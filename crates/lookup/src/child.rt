// One step of a look-up: from a value to one right inside it.
ghost use Rattle.std.specs.Prelude.{ℕ};
ghost use Rattle.lookup.specs.Steps.{Stepped};
ghost use Rattle.lookup.specs.Tokens.{token_units};
ghost use Rattle.meaning.specs.Lookup.{child};
ghost use Rattle.text.specs.Node.{Node};
ghost use Rattle.values.specs.Held.{Held};

use crate::token::{index_of, same_name};
use members::record::{next, word_at};
use members::walk::siblings;
use values::span::start;

// The record of the value right inside that of record `r` that the token names: a member by its name, an element by
// its index.
#[tactic(auto, using(crate::proofs::Shapes::held))]
pub fn child_of(text: &[u8], table: &[u32], r: usize, token: &[u8]) -> Option<usize>
    requires { (v : Node) × Held text.now table.now r v }
    ensures stepped { (p : ℕ) (v : Node) → Held text.now table.now r v → Stepped text.now table.now p result (child p (token_units token.now) r v) }
{
    let mut inside = siblings(table, r + 1, next(table, r));
    match text[start(table, r)] {
        b'{' => inside.find(|k| same_name(&text[word_at(table, *k, 2) + 1..], token)),
        b'[' => inside.nth(index_of(token)?),
        _ => None,
    }
}
