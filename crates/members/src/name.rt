// Names of a text, compared where they stand.
ghost use Rattle.std.specs.Prelude.{◌<◌, eqb, drop, length, IsTrue, ◌≡◌, ◌≢◌};
ghost use Rattle.std.specs.Ordering.{ordering_index};
ghost use Rattle.members.specs.Names.{Onward, name_at};
ghost use Rattle.names.specs.Order.{order};
ghost use Rattle.names.specs.Units.{units};

use names::compare::compare_from;
use std::cmp::Ordering;

// The order of the names whose opening quotes stand at `p` and at `q`.
pub fn compare_at(text: &[u8], p: usize, q: usize) -> Ordering
    requires { (p < length text.now) × (q < length text.now) }
    ensures { ordering_index result ≡ order (name_at text.now p) (name_at text.now q) }
{
    compare_from(text, p + 1, text, q + 1)
}

// Whether the characters from `i` on and those from `j` on differ in their first bytes.
fn differ_here(text: &[u8], i: usize, j: usize) -> bool
    ensures { IsTrue result → units (drop i text.now) ≢ units (drop j text.now) }
{
    match (text.get(i), text.get(j)) {
        (Some(x), Some(y)) => x != y && *x != b'\\' && *y != b'\\',
        _ => false,
    }
}

// Whether they begin with the same byte, one that stands for itself.
fn begin_alike(text: &[u8], i: usize, j: usize) -> bool
    ensures { IsTrue result → Onward text.now i j }
{
    match (text.get(i), text.get(j)) {
        (Some(x), Some(y)) => x == y && *x != b'"' && *x != b'\\',
        _ => false,
    }
}

// Whether the names whose opening quotes stand at `p` and `q` differ by their first two bytes.
fn differ_at_once(text: &[u8], p: usize, q: usize) -> bool
    requires { (p < length text.now) × (q < length text.now) }
    ensures { IsTrue result → name_at text.now p ≢ name_at text.now q }
{
    let i = p + 1;
    let j = q + 1;
    differ_here(text, i, j) || begin_alike(text, i, j) && differ_here(text, i + 1, j + 1)
}

// Whether they are equal.
pub fn same_at(text: &[u8], p: usize, q: usize) -> bool
    requires { (p < length text.now) × (q < length text.now) }
    ensures { result ≡ eqb (order (name_at text.now p) (name_at text.now q)) 1 }
{
    !differ_at_once(text, p, q) && compare_at(text, p, q).is_eq()
}
