// Bytes that are written as they are.
ghost use Rattle.std.specs.Prelude.{length, ◌≤◌};
ghost use Rattle.spell.specs.Puts.{Puts};

// Writes `word` to the front of `out`, and returns how many bytes it takes. Byte by byte, since the
// library's own copy would ask a C program for `memmove`.
pub fn put_word(word: &[u8], out: &mut [u8]) -> usize
    requires { length word.now ≤ length out.old }
    ensures put { Puts word.now out.old result out.new }
{
    for i in 0..word.len() {
        out[i] = word[i];
    }
    word.len()
}
