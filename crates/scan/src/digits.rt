// Digits that have been counted.
ghost use Rattle.std.specs.Prelude.{true, ◌≡◌, ◌+◌, ◌^◌, ◌≤◌, ◌<◌};
ghost use Rattle.text.proofs.Digits.{and_digit};
ghost use Rattle.text.specs.Bytes.{is_digit};
ghost use Rattle.text.specs.Ceilings.{max_digits};

// Digits up to the offset `end`: `digits` of them, within their ceiling, come to `coefficient`.
#[derive(Clone, Copy)]
pub struct Digits {
    pub end: usize,
    pub coefficient: u64,
    pub digits: u64,
    pub ghost few: { digits ≤ max_digits },
    pub ghost small: { coefficient < 10 ^ digits },
}

// The digits `d` and one more, `b`, which stands at `at`.
pub fn and_digit(d: Digits, b: u8, at: usize) -> Digits
    requires { (d.digits < max_digits) × (is_digit b ≡ true) × (at < 9223372036854775808) }
    ensures { (result.end ≡ at + 1) × (result.coefficient ≡ and_digit d.coefficient b) × (result.digits ≡ d.digits + 1) }
{
    Digits {
        end: at + 1,
        coefficient: 10 * d.coefficient + u64::from(b - b'0'),
        digits: d.digits + 1,
    }
}
