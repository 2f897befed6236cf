//! The bounds on a table's degree bits.
ghost use Rattle.std.specs.Prelude.{◌≡◌, ◌+◌, ◌-◌, ◌<◌, ◌≤◌, ◌^◌, MatchResult};
ghost use Rattle.p3_uni_stark.specs.Shape.{IsBeyond};

use crate::error::InvalidProofShapeError;

/// A table's log height and the size of its extended domain, from its degree bits: the log height plus `is_zk`, which
/// is 1 where the backend hides and else 0. `DegreeBitsTooSmall` exactly where the degree bits are below the backend's
/// least log height plus `is_zk`, and `DegreeBitsTooLarge` exactly where they are above its greatest
/// (`validate_degree_bits` of `p3-uni-stark`).
pub fn validate_degree_bits(
    air: Option<usize>,
    degree_bits: usize,
    is_zk: usize,
    log_min: usize,
    log_max: usize,
) -> Result<(usize, usize), InvalidProofShapeError>
    requires bounds { log_min + is_zk ≤ log_max }
    requires fits { log_max < 64 }
    ensures { MatchResult result
        (λ p. (log_min + is_zk ≤ degree_bits) × (degree_bits ≤ log_max)
        × (p.0 ≡ degree_bits - is_zk) × (p.1 ≡ 2 ^ degree_bits))
        (IsBeyond air degree_bits (log_min + is_zk) log_max) }
{
    let minimum = log_min + is_zk;
    if degree_bits < minimum {
        return Err(InvalidProofShapeError::DegreeBitsTooSmall {
            air,
            minimum,
            got: degree_bits,
        });
    }
    if degree_bits > log_max {
        return Err(InvalidProofShapeError::DegreeBitsTooLarge {
            air,
            maximum: log_max,
            got: degree_bits,
        });
    }
    Ok((degree_bits - is_zk, 1 << degree_bits))
}
