// The exponent of a number's normal form.
ghost use Rattle.std.specs.Prelude.{false, ◌≡◌, ◌^◌, ◌≤◌, ◌<◌};
ghost use Rattle.text.specs.Ceilings.{max_digits};
ghost use Rattle.text.specs.Decimal.{exponent_of, normal, strip, zeros};

// What stands before an exponent: `digits` digits that come to `coefficient`, the last `fraction` of them
// behind the point.
#[derive(Clone, Copy)]
pub struct Mantissa {
    pub negative: bool,
    pub coefficient: u64,
    pub digits: u64,
    pub fraction: u64,
    pub ghost few: { digits ≤ max_digits },
    pub ghost part: { fraction ≤ digits },
    pub ghost below: { coefficient < 10 ^ digits },
}

// A coefficient without the zeros that end it, and how many those are.
#[derive(Clone, Copy)]
pub struct Stripped {
    pub coefficient: u64,
    pub zeros: u64,
}

// `coefficient` without the zeros that end it, of at most `digits`.
pub fn strip(digits: u64, coefficient: u64) -> Stripped
    ensures coefficient { result.coefficient ≡ strip digits coefficient }
    ensures zeros { (result.zeros ≡ zeros digits coefficient) × (result.zeros ≤ digits) }
{
    let mut c = coefficient;
    for zeros in 0..digits {
        if c % 10 != 0 {
            return Stripped {
                coefficient: c,
                zeros,
            };
        }
        c /= 10;
    }
    Stripped {
        coefficient: c,
        zeros: digits,
    }
}

// The exponent, apart from its sign, of the normal form of `digits` digits that come to `coefficient`, the
// last `fraction` of them behind the point, times ten to the `power`, or to minus `power` if `down`.
pub fn exponent_of(coefficient: u64, digits: u64, fraction: u64, down: bool, power: u64) -> u64
    requires { (digits ≤ max_digits) × (fraction ≤ max_digits) × (power ≤ 9999) }
    ensures { result ≡ exponent_of (normal false coefficient digits fraction down power) }
{
    if coefficient == 0 {
        return 0;
    }
    let zeros = strip(digits, coefficient).zeros;
    if down {
        return zeros.abs_diff(power + fraction);
    }
    (power + zeros).abs_diff(fraction)
}
