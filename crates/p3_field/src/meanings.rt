//! What follows from a field's constants: laws as the contracts of functions that compute nothing.
ghost use Rattle.std.specs.Prelude.{◌≡◌};

use crate::RingCore;

/// In a ring in which `TWO` is zero, one and one is zero (`ones`), and so is each value twice (`values`).
pub fn twice_is_zero<R: RingCore>()
    requires { R.TWO ≡ R.ring.zero }
    ensures ones { R.ring.add R.ring.one R.ring.one ≡ R.ring.zero }
    ensures values { (x : R) → R.ring.add x x ≡ R.ring.zero }
{}
