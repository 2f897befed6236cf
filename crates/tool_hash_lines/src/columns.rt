//! The polynomials of a committed table's columns.
ghost use Rattle.std.specs.Prelude.{◌≡◌, ℕ, ◌+◌, ◌<◌, ◌≤◌, ◌^◌, IfOk, length, map};
ghost use Rattle.p3_field.specs.BabyBear.{baby_bear_ring, baby_bear_root, reduce};
ghost use Rattle.p3_field.specs.Domain.{IsInterpolant, coset_point};
ghost use Rattle.p3_matrix.specs.Matrix.{column, height};
ghost use Rattle.commit_core.specs.Space.{EachOf};
ghost use Rattle.plain_pcs.specs.Refusals.{HasSubgroupHeight};
ghost use Rattle.law_soundness.specs.Commitment.{matrix_at, polynomials_at};
ghost use Rattle.tool_statement.specs.Config.{tool_scheme};

use p3_dft::Radix2Dit;
use p3_field::{BabyBear, Mem, TwoAdicCore};
use plain_pcs::{PlainCommitment, PlainPcs};
use std::alloc::Global;

// The plain scheme of the program's configuration.
fn plain_scheme() -> PlainPcs<BabyBear, Radix2Dit>
    ensures { result ≡ record { log_blowup = 1 } }
{
    match PlainPcs::new(Radix2Dit, 1) {
        Some(scheme) => scheme,
        None => unreachable!(),
    }
}

/// The coefficients of the polynomials of the columns of a committed matrix, lowest first (not in Plonky3): the interpolants of its columns on the coset of as
/// many points with shift 31 (`columns`); of a matrix of 2^(k + 1) rows those of columns that were given on 2^k rows (`polynomials`). The commitment has such a matrix, of a height that is that of one of the field's domains, and isn't copied. The only
/// error is running out of memory.
pub fn committed_columns(
    alloc: Global,
    commitment: &PlainCommitment<BabyBear>,
    matrix: usize,
) -> Mem<Vec<Vec<BabyBear>>>
    requires exists { matrix < length commitment.now.matrices }
    requires height { HasSubgroupHeight 27 (matrix_at commitment.now matrix) }
    ensures columns { IfOk result (λ v. (k : ℕ)
        → height (matrix_at commitment.now matrix) ≡ 2 ^ k
        → EachOf (matrix_at commitment.now matrix).width v.items
        (λ j f. IsInterpolant baby_bear_ring (coset_point baby_bear_ring (reduce 31)
        (baby_bear_root k)) (column baby_bear_ring.zero (matrix_at commitment.now matrix) j)
        f.items)) }
    ensures polynomials { IfOk result (λ v. (k : ℕ) → k + 1 ≤ 27
        → height (matrix_at commitment.now matrix) ≡ 2 ^ (k + 1)
        → map (λ f. f.items) v.items ≡ polynomials_at tool_scheme k commitment.now matrix) }
{
    plain_scheme().committed(alloc, commitment, matrix)
}
