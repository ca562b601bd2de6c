// Numbers.
ghost use Rattle.std.specs.Prelude.{T, length, get_or, true, not, ◌≡◌, ◌≤◌, ◌<◌};
ghost use Rattle.scan.specs.Numbers.{NumberAt, opens_number};
ghost use Rattle.scan.specs.Numerals.{BehindMinus, FractionAt, PartAt, WholeAt, behind_point, behind_whole, first};
ghost use Rattle.text.specs.Bytes.{is_digit};
ghost use Rattle.text.specs.Ceilings.{max_digits};

use crate::bytes::{byte_at, is_digit};
use crate::digits::{Digits, and_digit};
use crate::exponent::Mantissa;
use crate::limits::MAX_DIGITS;
use crate::power::tail_at;
use crate::refusal::Refusal;
use crate::run::{digit_at, digits_at};

// A number as it is written up to the offset `end`: `digits` digits come to `coefficient`, the last
// `fraction` of them behind the point, times ten to the `power`, or to minus `power` if `down`.
#[derive(Clone, Copy)]
pub struct Written {
    pub negative: bool,
    pub coefficient: u64,
    pub digits: u64,
    pub fraction: u64,
    pub down: bool,
    pub power: u64,
    pub end: usize,
}

// The digits from `at` on, behind the point, counted on from the digits `whole` before it.
fn decimals_at(text: &[u8], at: usize, whole: Digits) -> Result<Digits, Refusal>
    requires { (at ≤ length text.now) × (whole.digits < max_digits) }
    ensures counted { FractionAt text.now (behind_point whole) at whole result }
{
    let b = digit_at(text, at)?;
    digits_at(text, and_digit(whole, b, at))
}

// The same behind the digits `whole`, where a point may stand and no digit.
fn fraction_at(text: &[u8], whole: Digits) -> Result<Digits, Refusal>
    requires { (whole.end ≤ length text.now) × T (not (is_digit (get_or text.now whole.end 0))) }
    ensures counted { FractionAt text.now (behind_whole whole) whole.end whole result }
{
    let b = byte_at(text, whole.end);
    if b != b'.' {
        return Ok(whole);
    }
    if whole.digits == MAX_DIGITS {
        return Err(Refusal::Digits(whole.end));
    }
    decimals_at(text, whole.end + 1, whole)
}

// The rest of a number behind the digits `whole` before its point. All digits are counted first: `tail_at`,
// called from one place only, is inlined, and no answer is copied.
fn point_at(text: &[u8], negative: bool, whole: Digits) -> Result<Written, Refusal>
    requires { (whole.end ≤ length text.now) × T (not (is_digit (get_or text.now whole.end 0))) }
    ensures part { PartAt text.now (behind_whole whole negative) whole.end result }
{
    let all = fraction_at(text, whole)?;
    let m = Mantissa {
        negative,
        coefficient: all.coefficient,
        digits: all.digits,
        fraction: all.digits - whole.digits,
    };
    tail_at(text, all.end, m)
}

// The digits before the point, of which `lead` is the first. Nothing but a point or an exponent may stand
// behind a leading 0.
fn whole_at(text: &[u8], lead: Digits) -> Result<Digits, Refusal>
    requires { lead.end ≤ length text.now }
    ensures counted { WholeAt text.now lead result }
{
    if lead.coefficient == 0 {
        return Ok(lead);
    }
    digits_at(text, lead)
}

// The rest of a number behind its first digit, which is `lead`.
fn mantissa_at(text: &[u8], at: usize, negative: bool, lead: u8) -> Result<Written, Refusal>
    requires { (at ≤ length text.now) × (is_digit lead ≡ true) }
    ensures part { PartAt text.now (first negative lead) at result }
{
    let first = Digits {
        end: at,
        coefficient: u64::from(lead - b'0'),
        digits: 1,
    };
    let whole = whole_at(text, first)?;
    if is_digit(byte_at(text, whole.end)) {
        return Ok(Written {
            negative,
            coefficient: 0,
            digits: 1,
            fraction: 0,
            down: false,
            power: 0,
            end: whole.end,
        });
    }
    point_at(text, negative, whole)
}

// The offset of the first digit of a number whose first byte, `b`, stands at `at`.
fn behind_minus(b: u8, at: usize) -> usize
    requires { at < 9223372036854775808 }
    ensures { BehindMinus b at result }
{
    if b == b'-' { at + 1 } else { at }
}

// The number of `text` whose first byte, a digit or `-`, stands at `at`, as far as a number can be read.
pub fn number_at(text: &[u8], at: usize) -> Result<Written, Refusal>
    requires { (at < length text.now) × (opens_number (get_or text.now at 0) ≡ true) }
    ensures read { NumberAt text.now at result }
{
    let b = text[at];
    let j = behind_minus(b, at);
    let lead = digit_at(text, j)?;
    mantissa_at(text, j + 1, b == b'-', lead)
}
