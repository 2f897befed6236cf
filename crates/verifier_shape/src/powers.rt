//! Powers of two.
ghost use Rattle.std.specs.Prelude.{◌≡◌, ◌<◌, ◌^◌};

// 2^`log`.
pub(crate) fn power_of_two(log: usize) -> usize
    requires { log < 64 }
    ensures size { result ≡ 2 ^ log }
    ensures positive { 0 < result }
{
    1 << log
}
