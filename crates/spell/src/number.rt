// Canonical numbers.
#![tactic(auto, using(crate::proofs::Parts::number_sum), unfolding(meaning::specs::Canonical::put_sign, meaning::specs::Canonical::put_power))]

ghost use Rattle.std.specs.Prelude.{length, [], ◌≡◌, ℕ, ◌^◌, ◌≤◌, ◌<◌};
ghost use Rattle.meaning.specs.Canonical.{put_digits, put_number, put_power, put_sign};
ghost use Rattle.spell.specs.Puts.{Puts};
ghost use Rattle.spell.specs.Scalars.{Numeral};
ghost use Rattle.text.specs.Ceilings.{max_digits, max_power};
ghost use Rattle.text.specs.Decimal.{Decimal};

use crate::digits::{digits_length, put_digits};
use crate::normal::normal_of;

// How many bytes a sign is written in.
fn sign_length(negative: bool) -> usize
    ensures { result ≡ length (put_sign negative []) }
{
    usize::from(negative)
}

// How many bytes `c` is written in, behind its sign.
fn signed_length(negative: bool, c: u64) -> usize
    requires { c < 10 ^ max_digits }
    ensures { (n : ℕ) → c < 10 ^ n → 0 < n → result ≡ length (put_sign negative (put_digits n c [])) }
{
    sign_length(negative) + digits_length(c)
}

// How many bytes an exponent is written in, with its mark: none if it is 0.
fn power_length(down: bool, power: u64) -> usize
    requires { power ≤ max_power }
    ensures { result ≡ length (put_power down power []) }
{
    if power == 0 {
        return 0;
    }
    1 + signed_length(down, power)
}

// The length of the canonical text of `number`, all of which is one number.
pub fn number_length(number: &[u8]) -> usize
    requires { (x : Decimal) × Numeral number.now x }
    ensures { (x : Decimal) → Numeral number.now x → result ≡ length (put_number x []) }
{
    let x = normal_of(number);
    signed_length(x.negative, x.coefficient) + power_length(x.down, x.power)
}

// Writes a sign to the front of `out`, and says how many bytes that took, as the functions below do.
fn put_sign(negative: bool, out: &mut [u8]) -> usize
    requires { length (put_sign negative []) ≤ length out.old }
    ensures put { Puts (put_sign negative []) out.old result out.new }
{
    if negative {
        out[0] = b'-';
        return 1;
    }
    0
}

// Writes `c` behind its sign.
fn put_signed(negative: bool, c: u64, out: &mut [u8]) -> usize
    requires { (c < 10 ^ max_digits) × (length (put_sign negative (put_digits max_digits c [])) ≤ length out.old) }
    ensures put { (n : ℕ) → c < 10 ^ n → 0 < n → Puts (put_sign negative (put_digits n c [])) out.old result out.new }
{
    let n = put_sign(negative, out);
    n + put_digits(c, &mut out[n..])
}

// Writes an exponent behind its mark, unless it is 0.
fn put_power(down: bool, power: u64, out: &mut [u8]) -> usize
    requires { (power ≤ max_power) × (length (put_power down power []) ≤ length out.old) }
    ensures put { Puts (put_power down power []) out.old result out.new }
{
    if power == 0 {
        return 0;
    }
    out[0] = b'e';
    1 + put_signed(down, power, &mut out[1..])
}

// Writes the canonical text of `number`, all of which is one number.
pub fn put_number(number: &[u8], out: &mut [u8]) -> usize
    requires { (x : Decimal) × Numeral number.now x × (length (put_number x []) ≤ length out.old) }
    ensures put { (x : Decimal) → Numeral number.now x → Puts (put_number x []) out.old result out.new }
{
    let x = normal_of(number);
    let n = put_signed(x.negative, x.coefficient, out);
    n + put_power(x.down, x.power, &mut out[n..])
}
