// One unit of a string in canonical text.
#![tactic(auto, unfolding(meaning::specs::Canonical::put_unit, crate::specs::Strings::put_hex))]

ghost use Rattle.std.specs.Prelude.{length, [], ◌≡◌, ◌<◌, ◌≤◌};
ghost use Rattle.meaning.specs.Canonical.{hex_digit, is_bare, put_unit};
ghost use Rattle.spell.specs.Puts.{Puts};
ghost use Rattle.spell.specs.Strings.{is_mark, put_hex};

// Whether `u` is written plain.
pub fn is_bare(u: u64) -> bool
    ensures { result ≡ is_bare u }
{
    (32 <= u) & (u <= 126) & !(u == 34) & !(u == 92)
}

// Whether `u` is a quote or a backslash, which is written behind a backslash.
fn is_mark(u: u64) -> bool
    ensures { result ≡ is_mark u }
{
    (u == 34) | (u == 92)
}

// The hexadecimal digit of `n`.
fn hex_digit(n: u64) -> u8
    requires { n < 16 }
    ensures { result ≡ hex_digit n }
{
    if n < 10 {
        return b'0' + n as u8;
    }
    b'a' + (n - 10) as u8
}

// How many bytes the unit `u` takes.
pub fn unit_length(u: u64) -> usize
    ensures { (result ≡ length (put_unit u [])) × (result ≤ 6) }
{
    if is_bare(u) {
        return 1;
    }
    if is_mark(u) {
        return 2;
    }
    6
}

// Writes the unit `u` by its number to the front of `out`, and returns how many bytes it takes.
fn put_hex(u: u64, out: &mut [u8]) -> usize
    requires { 6 ≤ length out.old }
    ensures put { Puts (put_hex u) out.old result out.new }
{
    out[0] = b'\\';
    out[1] = b'u';
    out[2] = hex_digit(u / 4096 % 16);
    out[3] = hex_digit(u / 256 % 16);
    out[4] = hex_digit(u / 16 % 16);
    out[5] = hex_digit(u % 16);
    6
}

// Writes the unit `u` to the front of `out`, and returns how many bytes it takes.
pub fn put_unit(u: u64, out: &mut [u8]) -> usize
    requires { length (put_unit u []) ≤ length out.old }
    ensures put { Puts (put_unit u []) out.old result out.new }
{
    if is_bare(u) {
        out[0] = u as u8;
        return 1;
    }
    if is_mark(u) {
        out[0] = b'\\';
        out[1] = u as u8;
        return 2;
    }
    put_hex(u, out)
}
