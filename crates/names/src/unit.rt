// One unit of a name.
#![tactic(auto, using(crate::proofs::Reading::reading))]

ghost use Rattle.std.specs.Prelude.{length, ◌≤◌};
ghost use Rattle.names.specs.Steps.{StepAt};
ghost use Rattle.names.specs.Units.{units, escaped, hexed};

use crate::escape::{escape_unit, hex_unit};

// A unit and the offset behind it.
#[derive(Clone, Copy)]
pub struct Unit {
    pub code: u64,
    pub next: usize,
}

// The first unit of the name whose characters begin at `i` of `text`, unless the name ends there.
pub fn unit_at(text: &[u8], i: usize) -> Option<Unit>
    ensures step { StepAt units text.now i result }
{
    match *text.get(i)? {
        b'"' => None,
        b'\\' => escaped_at(text, i + 1),
        b => Some(Unit {
            code: u64::from(b),
            next: i + 1,
        }),
    }
}

// The same behind a backslash.
fn escaped_at(text: &[u8], i: usize) -> Option<Unit>
    ensures step { StepAt escaped text.now i result }
{
    match *text.get(i)? {
        b'u' => hexed_at(text, i + 1),
        b => Some(Unit {
            code: escape_unit(b),
            next: i + 1,
        }),
    }
}

// The same behind a `\u`.
fn hexed_at(text: &[u8], i: usize) -> Option<Unit>
    requires { i ≤ length text.now }
    ensures step { StepAt hexed text.now i result }
{
    let [a, b, c, d, ..] = &text[i..] else {
        return None;
    };
    Some(Unit {
        code: hex_unit(*a, *b, *c, *d),
        next: i + 4,
    })
}
