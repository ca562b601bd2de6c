// Runs of digits.
ghost use Rattle.std.specs.Prelude.{length, ◌≤◌};
ghost use Rattle.scan.specs.Numerals.{DigitAt, DigitsAt};

use crate::bytes::is_digit;
use crate::digits::{Digits, and_digit};
use crate::limits::MAX_DIGITS;
use crate::refusal::Refusal;

// The digit that stands in `text` at `at`, or a refusal of what stands there instead.
pub fn digit_at(text: &[u8], at: usize) -> Result<u8, Refusal>
    ensures read { DigitAt text.now at result }
{
    if text.len() <= at {
        return Err(Refusal::Short(at));
    }
    let b = text[at];
    if !is_digit(b) {
        return Err(Refusal::Wrong(at));
    }
    Ok(b)
}

// The digits `before` with those of `text` behind them, or a refusal of the digit that is one too many.
pub fn digits_at(text: &[u8], before: Digits) -> Result<Digits, Refusal>
    requires { before.end ≤ length text.now }
    ensures counted { DigitsAt text.now before result }
{
    let mut d = before;
    for i in before.end..text.len() {
        let b = text[i];
        if !is_digit(b) {
            return Ok(d);
        }
        if d.digits == MAX_DIGITS {
            return Err(Refusal::Digits(i));
        }
        d = and_digit(d, b, i);
    }
    Ok(d)
}
