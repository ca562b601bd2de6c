// Numbers in normal form.
#![tactic(auto, using(std::proofs::lemmas::Bool::Decides::nat_tests), unfolding(text::specs::Decimal::normal, text::specs::Decimal::scaled))]

ghost use Rattle.std.specs.Prelude.{false, ◌≡◌};
ghost use Rattle.scan.specs.Numbers.{Sized, decimal_of};
ghost use Rattle.spell.specs.Normals.{NormalOf, meant};
ghost use Rattle.spell.specs.Scalars.{Numeral};
ghost use Rattle.text.specs.Decimal.{Decimal, scaled};

use scan::exponent::strip;
use scan::number::{Written, number_at};

// The coefficient, which does not end in 0, times ten to the `power`, or to minus `power` if `down`.
// Zero is never negative, and has the power 0.
#[derive(Clone, Copy)]
pub struct Normal {
    pub negative: bool,
    pub coefficient: u64,
    pub down: bool,
    pub power: u64,
}

// The normal form of zero.
fn nought() -> Normal
    ensures { meant result ≡ Decimal.decimal false 0 false 0 }
{
    Normal {
        negative: false,
        coefficient: 0,
        down: false,
        power: 0,
    }
}

// `coefficient` times ten to the `up` less `down`.
fn times_ten(negative: bool, coefficient: u64, up: u64, down: u64) -> Normal
    ensures { meant result ≡ scaled negative coefficient up down }
{
    Normal {
        negative,
        coefficient,
        down: up < down,
        power: up.abs_diff(down),
    }
}

// The normal form of a number that is written so.
fn normalised(w: Written) -> Normal
    requires { Sized w }
    ensures { meant result ≡ decimal_of w }
{
    if w.coefficient == 0 {
        return nought();
    }
    let s = strip(w.digits, w.coefficient);
    if w.down {
        return times_ten(w.negative, s.coefficient, s.zeros, w.power + w.fraction);
    }
    times_ten(w.negative, s.coefficient, w.power + s.zeros, w.fraction)
}

// The normal form of `number`, all of which is one number, so that the leaf never refuses it.
pub fn normal_of(number: &[u8]) -> Normal
    requires { (x : Decimal) × Numeral number.now x }
    ensures normal { NormalOf number.now result }
{
    let Ok(w) = number_at(number, 0) else {
        return nought();
    };
    normalised(w)
}
