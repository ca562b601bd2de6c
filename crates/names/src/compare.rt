// The order of two names.
#![tactic(auto, using(crate::proofs::Order::comparing, crate::proofs::Reading::reading))]

ghost use Rattle.std.specs.Prelude.{IsTrue, drop, length, ◌≡◌, ◌≢◌, ◌<◌, ◌≤◌};
ghost use Rattle.std.specs.Ordering.{ordering_index};
ghost use Rattle.names.specs.Order.{order};
ghost use Rattle.names.specs.Units.{units};

use crate::alike::alike;
use crate::unit::unit_at;
use std::cmp::Ordering;

// Whether `b` stands for itself in a name.
fn is_itself(b: u8) -> bool
    ensures { IsTrue result → (b ≢ 34) × (b ≢ 92) }
{
    b != b'"' && b != b'\\'
}

// The order of the name whose characters begin `a` and the one whose characters begin `b`, unit by unit
// behind the beginning that they share.
fn compare(a: &[u8], b: &[u8]) -> Ordering
    ensures { ordering_index result ≡ order (units a.now) (units b.now) }
{
    let mut i = alike(a, b);
    let mut j = i;
    // Most names differ first in bytes that stand for themselves.
    if let (Some(x), Some(y)) = (a.get(i), b.get(i)) {
        if *x != *y && is_itself(*x) && is_itself(*y) {
            return x.cmp(y);
        }
    }
    loop {
        match (unit_at(a, i), unit_at(b, j)) {
            (None, None) => return Ordering::Equal,
            (None, Some(_)) => return Ordering::Less,
            (Some(_), None) => return Ordering::Greater,
            (Some(x), Some(y)) => {
                if x.code != y.code {
                    return x.code.cmp(&y.code);
                }
                i = x.next;
                j = y.next;
            }
        }
    }
}

// The same of the names whose characters begin at `i` of `a` and at `j` of `b`. Whole slices that are lent
// on cost less than parts of them.
pub fn compare_from(a: &[u8], i: usize, b: &[u8], j: usize) -> Ordering
    requires { (i ≤ length a.now) × (j ≤ length b.now) }
    ensures { ordering_index result ≡ order (units (drop i a.now)) (units (drop j b.now)) }
{
    compare(&a[i..], &b[j..])
}
