// Steps of eight.
ghost use Rattle.std.specs.Prelude.{true, false, ℕ, ◌+◌, ◌^◌, ◌<◌, ◌≤◌, ◌≡◌};
ghost use Rattle.scan.specs.Eights.{Eight, Eights};

// Whether each of the eight from `i` on passes the test. No branch stands between the tests.
pub fn eight<F: Fn(usize) -> bool>(i: usize, passes: F) -> bool
    requires bound { i + 8 ≤ 2 ^ 64 }
    requires tested { Eight (F.pre passes) i }
    ensures passed { result ≡ true → Eight (λ k. F.post passes k true) i }
    ensures failed { result ≡ false → (k : ℕ) × (i ≤ k) × (k < i + 8) × F.post passes k false }
{
    passes(i)
        & passes(i + 1)
        & passes(i + 2)
        & passes(i + 3)
        & passes(i + 4)
        & passes(i + 5)
        & passes(i + 6)
        & passes(i + 7)
}

// How far, from `from` on and up to `end` at most, by steps of eight, each eight pass the test.
pub fn eights<F: Fn(usize) -> bool>(from: usize, end: usize, passes: F) -> usize
    requires ordered { from ≤ end }
    requires tested { (i : ℕ) → from ≤ i → i + 8 ≤ end → F.pre passes i }
    ensures within { (from ≤ result) × (result ≤ end) }
    ensures passed { Eights (λ i. F.post passes i true) from result }
{
    let mut i = from;
    while 8 <= end - i {
        if !passes(i) {
            return i;
        }
        i += 8;
    }
    i
}
