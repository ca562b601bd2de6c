// A token read where it stands: as a name, and as an index.
ghost use Rattle.std.specs.Prelude.{◌≡◌, ◌<◌};
ghost use Rattle.lookup.specs.Reading.{DigitsFrom, TokenStep, digit_of, pair_unit};
ghost use Rattle.lookup.specs.Tokens.{Index, token_units};
ghost use Rattle.members.specs.Records.{max_records};
ghost use Rattle.names.specs.Units.{units};
ghost use Rattle.text.specs.Ceilings.{same};

use names::unit::{Unit, unit_at};
use reader::limits::MAX_TEXT;

// The units of the digits.
const ZERO: u64 = b'0' as u64;

const NINE: u64 = b'9' as u64;

// The byte that a `~` and the byte `b` stand for, which is a `0` or a `1` in a pointer.
fn pair_unit(b: u8) -> u8
    ensures { result ≡ pair_unit b }
{
    if b == b'0' { b'~' } else { b'/' }
}

// The first unit from `i` of `token` on, unless the token ends there.
#[tactic(auto, using(crate::proofs::Reading::token_steps))]
fn token_unit(token: &[u8], i: usize) -> Option<Unit>
    ensures step { TokenStep token.now i result }
{
    let b = *token.get(i)?;
    if b != b'~' {
        return Some(Unit {
            code: u64::from(b),
            next: i + 1,
        });
    }
    let d = *token.get(i + 1)?;
    Some(Unit {
        code: u64::from(pair_unit(d)),
        next: i + 2,
    })
}

// Whether `token` is the name whose characters begin `name`.
#[tactic(auto, using(crate::proofs::Reading::comparing))]
pub fn same_name(name: &[u8], token: &[u8]) -> bool
    ensures { result ≡ same (token_units token.now) (units name.now) }
{
    let mut i = 0;
    let mut j = 0;
    while let Some(x) = unit_at(name, i) {
        let Some(y) = token_unit(token, j) else {
            return false;
        };
        if x.code != y.code {
            return false;
        }
        i = x.next;
        j = y.next;
    }
    token_unit(token, j).is_none()
}

// The value of the unit `c`, if it is a digit.
fn digit(c: u64) -> Option<usize>
    ensures { result ≡ digit_of c }
{
    match c {
        ZERO..=NINE => Some((c - ZERO) as usize),
        _ => None,
    }
}

// The number that the units from `from` of `token` on come to behind the number `first`, unless one of them is no
// digit or it is so great that no array has so many elements. Once it is so great no more of them are read.
#[tactic(auto, using(crate::proofs::Indices::digits))]
fn index_from(token: &[u8], from: usize, first: usize) -> Option<usize>
    requires { first < max_records }
    ensures index { DigitsFrom token.now from first result }
{
    let mut value = first;
    let mut i = from;
    while let Some(u) = token_unit(token, i) {
        value = 10 * value + digit(u.code)?;
        if MAX_TEXT <= value {
            return None;
        }
        i = u.next;
    }
    Some(value)
}

// The index that `token` is, unless it is none or so great that no array has so many elements.
#[tactic(auto, using(crate::proofs::Indices::indices))]
pub fn index_of(token: &[u8]) -> Option<usize>
    ensures index { Index (token_units token.now) result }
{
    let u = token_unit(token, 0)?;
    let first = digit(u.code)?;
    if first == 0 && token_unit(token, u.next).is_some() {
        return None;
    }
    index_from(token, u.next, first)
}
