// The names of two records, compared.
#![tactic(auto, unfolding(crate::specs::Names::name_of, crate::specs::Merging::turned))]

ghost use Rattle.members.specs.Merging.{turned};
ghost use Rattle.members.specs.Names.{Named, in_order, name_of};
ghost use Rattle.names.specs.Order.{order};
ghost use Rattle.std.specs.Ordering.{ordering_index};
ghost use Rattle.std.specs.Prelude.{eqb, ◌≡◌};

use crate::name::{compare_at, same_at};
use crate::record::word_at;
use std::cmp::Ordering;

// The order of the names of the records `a` and `b`.
pub fn order_of(text: &[u8], table: &[u32], a: usize, b: usize) -> Ordering
    requires { Named text.now table.now a × Named text.now table.now b }
    ensures { ordering_index result ≡ order (name_of text.now table.now a) (name_of text.now table.now b) }
{
    compare_at(text, word_at(table, a, 2), word_at(table, b, 2))
}

// Whether the records `a` and `b` have the same name.
pub fn same_name(text: &[u8], table: &[u32], a: usize, b: usize) -> bool
    requires { Named text.now table.now a × Named text.now table.now b }
    ensures { result ≡ eqb (order (name_of text.now table.now a) (name_of text.now table.now b)) 1 }
{
    same_at(text, word_at(table, a, 2), word_at(table, b, 2))
}

// Whether record `a` comes before `b`: by name, and among equal names by number.
fn comes_before(text: &[u8], table: &[u32], a: usize, b: usize) -> bool
    requires { Named text.now table.now a × Named text.now table.now b }
    ensures { result ≡ in_order text.now table.now a b }
{
    order_of(text, table, a, b).then(a.cmp(&b)).is_lt()
}

// The same, or if not `up` whether `b` comes before `a`.
pub fn in_turn(text: &[u8], table: &[u32], up: bool, a: usize, b: usize) -> bool
    requires { Named text.now table.now a × Named text.now table.now b }
    ensures { result ≡ turned up (in_order text.now table.now) a b }
{
    if up {
        comes_before(text, table, a, b)
    } else {
        comes_before(text, table, b, a)
    }
}
