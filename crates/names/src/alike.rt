// The beginning that two names share as they are written.
#![tactic(auto, using(crate::proofs::Runs::alike_one))]

ghost use Rattle.std.specs.Prelude.{length, true, ◌≡◌, ◌+◌, ◌<◌, ◌≤◌};
ghost use Rattle.names.specs.Steps.{Alike};

use scan::eights::{eight, eights};

// Whether `a` and `b` have eight equal bytes from `i` on that stand for themselves. Equality, which fails
// most, is tested first.
fn alike_eight(a: &[u8], b: &[u8], i: usize) -> bool
    requires { (i + 8 ≤ length a.now) × (i + 8 ≤ length b.now) }
    ensures alike { result ≡ true → Alike a.now b.now i (i + 8) }
{
    eight(i, |k| a[k] == b[k]) && eight(i, |k| a[k] != b'"') & eight(i, |k| a[k] != b'\\')
}

// The length of the beginning that `a` and `b` share, of bytes that stand for themselves.
pub fn alike(a: &[u8], b: &[u8]) -> usize
    ensures { (result ≤ length a.now) × (result ≤ length b.now) × Alike a.now b.now 0 result }
{
    let n = a.len().min(b.len());
    for i in eights(0, n, |i| alike_eight(a, b, i))..n {
        if a[i] != b[i] || a[i] == b'"' || a[i] == b'\\' {
            return i;
        }
    }
    n
}
