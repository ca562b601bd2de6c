// Exponents, and what stands behind a number's last digit.
ghost use Rattle.std.specs.Prelude.{T, length, get_or, true, false, not, ◌≡◌, ◌≤◌, ◌<◌};
ghost use Rattle.scan.specs.Numerals.{BehindSign, PartAt, behind_fraction, behind_mark, behind_sign, behind_power, passes, written_of};
ghost use Rattle.text.specs.Bytes.{is_digit};

use crate::bytes::{byte_at, is_digit, is_e};
use crate::exponent::{Mantissa, exponent_of};
use crate::limits::MAX_POWER;
use crate::number::Written;
use crate::refusal::Refusal;
use crate::run::digit_at;

// Whether an exponent digit may stand behind `before` others, where it takes the exponent to `power`.
fn may_pass(m: Mantissa, down: bool, power: u64, before: u64) -> bool
    requires { power ≤ 9999 }
    ensures { (result ≡ passes m down power before) × (result ≡ true → before ≤ 2) }
{
    before < 2
        || (before == 2
            && exponent_of(m.coefficient, m.digits, m.fraction, down, power) <= MAX_POWER)
}

// A number that ends before `end`.
fn ended(m: Mantissa, down: bool, power: u64, end: usize) -> Written
    ensures { result ≡ written_of m down power end }
{
    Written {
        negative: m.negative,
        coefficient: m.coefficient,
        digits: m.digits,
        fraction: m.fraction,
        down,
        power,
        end,
    }
}

// The exponent's digits from `from` on, behind the first, which is `first`.
fn power_rest(
    text: &[u8],
    from: usize,
    m: Mantissa,
    down: bool,
    first: u64,
) -> Result<Written, Refusal>
    requires { (from ≤ length text.now) × (first ≤ 9) }
    ensures part { PartAt text.now (behind_power m down first 1) from result }
{
    let mut e = first;
    let mut k = 1;
    for i in from..text.len() {
        let b = text[i];
        if !is_digit(b) {
            return Ok(ended(m, down, e, i));
        }
        let x = 10 * e + u64::from(b - b'0');
        if !may_pass(m, down, x, k) {
            return Err(Refusal::Power(i));
        }
        e = x;
        k += 1;
    }
    Ok(ended(m, down, e, text.len()))
}

// The exponent behind its sign.
fn signed_power(text: &[u8], at: usize, m: Mantissa, down: bool) -> Result<Written, Refusal>
    requires { at ≤ length text.now }
    ensures part { PartAt text.now (behind_sign m down) at result }
{
    let b = digit_at(text, at)?;
    power_rest(text, at + 1, m, down, u64::from(b - b'0'))
}

// The offset behind an exponent's sign, if `b`, which stands at `at`, is one.
fn behind_sign(b: u8, at: usize) -> usize
    requires { at < 9223372036854775808 }
    ensures { BehindSign b at result }
{
    if b == b'+' || b == b'-' { at + 1 } else { at }
}

// The exponent behind its `e`.
fn power_at(text: &[u8], at: usize, m: Mantissa) -> Result<Written, Refusal>
    requires { at ≤ length text.now }
    ensures part { PartAt text.now (behind_mark m) at result }
{
    let b = byte_at(text, at);
    signed_power(text, behind_sign(b, at), m, b == b'-')
}

// The rest of a number behind `m`, where no digit stands: an exponent or nothing.
pub fn tail_at(text: &[u8], at: usize, m: Mantissa) -> Result<Written, Refusal>
    requires { (at ≤ length text.now) × T (not (is_digit (get_or text.now at 0))) }
    ensures part { PartAt text.now (behind_fraction m) at result }
{
    let b = byte_at(text, at);
    if is_e(b) {
        return power_at(text, at + 1, m);
    }
    Ok(ended(m, false, 0, at))
}
