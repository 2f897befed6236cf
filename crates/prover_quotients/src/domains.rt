//! The domains of a table's quotient.
ghost use Rattle.std.specs.Prelude.{◌≡◌, ◌+◌, ◌^◌, ◌<◌, ◌≤◌};
ghost use Rattle.std.specs.Int.{IsPowerOfTwo};
ghost use Rattle.batch_config.specs.Domains.{offered};

use commit_core::PolynomialSpace;
use p3_field::{
    FieldCore, PrimeCharacteristicRing, RingCore, TwoAdicCore, TwoAdicField,
    TwoAdicMultiplicativeCoset,
};

// 2^`log`.
fn shifted(log: usize) -> usize
    requires { log < 64 }
    ensures { result ≡ 2 ^ log }
{
    1 << log
}

// The same, as a power of two.
pub(crate) fn power_of_two(log: usize) -> usize
    requires { log < 64 }
    ensures size { result ≡ 2 ^ log }
    ensures power { IsPowerOfTwo result }
{
    shifted(log)
}

// The domain of a quotient: it is disjoint from that of the rows, and 2^`log_parts` times as large.
pub(crate) fn quotient_domain<F: TwoAdicField>(
    rows: TwoAdicMultiplicativeCoset<F>,
    log_parts: usize,
) -> TwoAdicMultiplicativeCoset<F>
    requires { rows.log_size + log_parts ≤ F.TWO_ADICITY }
    ensures { result ≡ offered F.ring F.GENERATOR rows log_parts }
{
    rows.create_disjoint_domain(power_of_two(rows.log_size() + log_parts))
}
