// Whether a pointer is well formed, and where its tokens end.
ghost use Rattle.std.specs.Prelude.{◌≤◌, drop, length, List, ◌≡◌};
ghost use Rattle.lookup.specs.Reading.{ends_pair};
ghost use Rattle.lookup.specs.Tokens.{Checked, TokenTo};
ghost use Rattle.meaning.specs.Pointer.{Token, TokenRest};
ghost use Rattle.text.specs.Bytes.{Units, from};

use scan::refusal::Refusal;

// The most bytes of a pointer.
const MAX_POINTER: usize = 65536;

// Whether a `0` or a `1` stands at `i` of `pointer`, as one must behind a `~`.
fn ends_pair(pointer: &[u8], i: usize) -> bool
    ensures { result ≡ ends_pair pointer.now i }
{
    matches!(pointer.get(i), Some(b'0' | b'1'))
}

// Checks that `pointer` is well formed. One that is too long is malformed behind as many bytes as one may have, at
// the latest.
#[tactic(auto, using(crate::proofs::Faults::faults))]
pub fn check(pointer: &[u8]) -> Result<(), Refusal>
    ensures checked { Checked pointer.now result }
{
    if !pointer.is_empty() && pointer[0] != b'/' {
        return Err(Refusal::Malformed(0));
    }
    let end = pointer.len().min(MAX_POINTER);
    let mut i: usize = 0;
    while i < end {
        let b = pointer[i];
        if b > 127 {
            return Err(Refusal::Malformed(i));
        }
        i += 1;
        if b == b'~' {
            if !ends_pair(pointer, i) {
                return Err(Refusal::Malformed(i));
            }
            i += 1;
        }
    }
    if end < pointer.len() {
        return Err(Refusal::Malformed(end));
    }
    Ok(())
}

// Where the token that begins at `at` of `pointer` ends: at the next `/`, or at the pointer's end.
pub fn token_end(pointer: &[u8], at: usize) -> usize
    requires { (at ≤ length pointer.now) × ((us : Units) × (ts : List Token) × TokenRest (from at (drop at pointer.now)) us ts) }
    ensures onward { at ≤ result }
    ensures bound { result ≤ length pointer.now }
    ensures token { (us : Units) (ts : List Token) → TokenRest (from at (drop at pointer.now)) us ts → TokenTo pointer.now at result us ts }
{
    let rest = &pointer[at..];
    at + rest.iter().position(|b| *b == b'/').unwrap_or(rest.len())
}
