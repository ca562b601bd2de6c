// Numbers in fewest digits.
#![tactic(auto, using(crate::proofs::Filling::digits))]

ghost use Rattle.std.specs.Prelude.{length, [], ◌≡◌, ℕ, ◌^◌, ◌≤◌, ◌<◌};
ghost use Rattle.meaning.specs.Canonical.{put_digits};
ghost use Rattle.spell.specs.Numerals.{reach};
ghost use Rattle.spell.specs.Puts.{Puts};
ghost use Rattle.text.specs.Ceilings.{max_digits};

// 1 if `c` is at least `bound`, and else 0.
fn reaches(c: u64, bound: u64) -> usize
    ensures { (result ≡ reach bound c) × (result ≤ 1) }
{
    usize::from(bound <= c)
}

// How many digits `c` is written in, which are at most nine: one more for each power of ten that it reaches.
// The compiler makes no branch of a comparison here, and digits are hard to foresee.
fn few_length(c: u64) -> usize
    requires { c < 10 ^ 9 }
    ensures { (result ≡ length (put_digits max_digits c [])) × (result ≤ 9) }
{
    1 + reaches(c, 10)
        + reaches(c, 100)
        + reaches(c, 1000)
        + reaches(c, 10000)
        + reaches(c, 100000)
        + reaches(c, 1000000)
        + reaches(c, 10000000)
        + reaches(c, 100000000)
}

// How many digits `c` is written in. Most exponents have one.
pub fn digits_length(c: u64) -> usize
    requires { c < 10 ^ max_digits }
    ensures { (n : ℕ) → c < 10 ^ n → 0 < n → result ≡ length (put_digits n c []) }
{
    if c < 10 {
        return 1;
    }
    if c < 1000000000 {
        return few_length(c);
    }
    9 + few_length(c / 1000000000)
}

// Writes the digits of `c` to the front of `out`, the last of them first, and says how many they are.
pub fn put_digits(c: u64, out: &mut [u8]) -> usize
    requires { (c < 10 ^ max_digits) × (length (put_digits max_digits c []) ≤ length out.old) }
    ensures put { (n : ℕ) → c < 10 ^ n → 0 < n → Puts (put_digits n c []) out.old result out.new }
{
    if c < 10 {
        out[0] = b'0' + c as u8;
        return 1;
    }
    let n = digits_length(c);
    let mut d = c;
    for i in (0..n).rev() {
        out[i] = b'0' + (d % 10) as u8;
        d /= 10;
    }
    n
}
