//! Powers of two.
ghost use Rattle.std.specs.Prelude.{◌≡◌, ◌<◌, ◌^◌};
ghost use Rattle.std.specs.Int.{IsPowerOfTwo};

// 2^`log`.
fn shifted(log: usize) -> usize
    requires { log < 64 }
    ensures size { result ≡ 2 ^ log }
    ensures positive { 0 < result }
{
    1 << log
}

// The same, as a power of two.
pub(crate) fn power_of_two(log: usize) -> usize
    requires { log < 64 }
    ensures size { result ≡ 2 ^ log }
    ensures positive { 0 < result }
    ensures power { IsPowerOfTwo result }
{
    shifted(log)
}
