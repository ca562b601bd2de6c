// What an answer's count says of an output.
ghost use Rattle.std.specs.Prelude.{take, ◌≡◌};

// The first `n` bytes of `s`, all where it has fewer.
pub fn front(s: &[u8], n: u32) -> &[u8]
    ensures front { result.now ≡ take n s.now }
{
    let k = n as usize;
    if s.len() < k {
        return s;
    }
    &s[..k]
}
