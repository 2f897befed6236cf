//! Logarithms to base 2. After Plonky3's `p3-util`.
ghost use Rattle.std.specs.Prelude.{◌≡◌, ℕ, ◌+◌, ◌^◌, ◌<◌, ◌≤◌, ◌↔◌, IsTrue, MatchOption};
ghost use Rattle.std.specs.Int.{IsPowerOfTwo};

/// Whether n is a power of two. Zero is none (not in Plonky3).
pub fn is_power_of_two(n: usize) -> bool
    ensures { IsTrue result ↔ IsPowerOfTwo n }
{
    n > 0 && 1 << n.ilog2() == n
}

/// The least k with n <= 2^k (`p3_util::log2_ceil_usize`).
pub fn log2_ceil_usize(n: usize) -> usize
    ensures enough { n ≤ 2 ^ result }
    ensures least { (k : ℕ) → n ≤ 2 ^ k → result ≤ k }
{
    if n <= 1 {
        0
    } else {
        (n - 1).ilog2() as usize + 1
    }
}

/// The logarithm of a power of two (`p3_util::log2_strict_usize`). `is_power_of_two` is the test.
pub fn log2_strict_usize(n: usize) -> usize
    requires { IsPowerOfTwo n }
    ensures { n ≡ 2 ^ result }
{
    n.ilog2() as usize
}

/// The sum of two logarithms and the size that it stands for; None exactly where the size passes `usize`
/// (`p3_util::checked_log_size_sum`).
pub fn checked_log_size_sum(a: usize, b: usize) -> Option<(usize, usize)>
    ensures { MatchOption result (64 ≤ a + b)
        (λ s. (a + b < 64) × (s.0 ≡ a + b) × (s.1 ≡ 2 ^ (a + b))) }
{
    if a >= 64 || b >= 64 - a {
        None
    } else {
        Some((a + b, 1 << (a + b)))
    }
}
