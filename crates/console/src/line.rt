// The line that says a refusal. Each function here writes to the front of `out` and returns how many bytes that
// took.
ghost use Rattle.std.specs.Prelude.{◌≤◌, length};
ghost use Rattle.console.specs.Parts.{in_input, numbered, placed, refusal_room};
ghost use Rattle.console.specs.Programs.{refused_at, refused_in};
ghost use Rattle.spell.specs.Puts.{Puts};

use spell::digits::put_digits;
use spell::word::put_word;

// Writes `refused N at P` and a line feed.
pub fn put_refused_at(number: u32, place: u32, out: &mut [u8]) -> usize
    requires { refusal_room ≤ length out.old }
    ensures put { Puts (refused_at number place) out.old result out.new }
{
    let n = put_numbered(b"refused ", number, out);
    n + put_place(place, &mut out[n..])
}

// Writes `refused N in I at P` and a line feed.
pub fn put_refused_in(number: u32, input: u32, place: u32, out: &mut [u8]) -> usize
    requires { refusal_room ≤ length out.old }
    ensures put { Puts (refused_in number input place) out.old result out.new }
{
    let n = put_numbered(b"refused ", number, out);
    n + put_input(input, place, &mut out[n..])
}

// Writes ` in I at P` and a line feed.
fn put_input(input: u32, place: u32, out: &mut [u8]) -> usize
    requires { length (in_input input place) ≤ length out.old }
    ensures put { Puts (in_input input place) out.old result out.new }
{
    let n = put_numbered(b" in ", input, out);
    n + put_place(place, &mut out[n..])
}

// Writes ` at P` and a line feed.
fn put_place(place: u32, out: &mut [u8]) -> usize
    requires { length (placed place) ≤ length out.old }
    ensures put { Puts (placed place) out.old result out.new }
{
    let n = put_numbered(b" at ", place, out);
    n + put_word(b"\n", &mut out[n..])
}

// Writes `before` and the digits of `x`.
fn put_numbered(before: &[u8], x: u32, out: &mut [u8]) -> usize
    requires { length (numbered before.now x) ≤ length out.old }
    ensures put { Puts (numbered before.now x) out.old result out.new }
{
    let n = put_word(before, out);
    n + put_digits(u64::from(x), &mut out[n..])
}
