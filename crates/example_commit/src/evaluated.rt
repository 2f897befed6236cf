//! The values of committed polynomials on another domain.
ghost use Rattle.std.specs.Prelude.{◌≡◌, ◌<◌, List, Some, length, slice_get, IfOk};
ghost use Rattle.p3_matrix.specs.Matrix.{Rows};
ghost use Rattle.commit_core.specs.Failure.{RefusedBy};
ghost use Rattle.example_commit.specs.Extended.{AreExtended};

use commit_core::{Pcs, PcsFailure, PolynomialSpace, UnivariateStarkPcs};
use p3_field::{
    BasedVectorSpace, ExtensionField, Field, FieldCore, PrimeCharacteristicRing, RingCore,
    TwoAdicCore,
};
use p3_matrix::RowMajorMatrix;
use std::alloc::Global;

/// Commits to matrices on their domains, and evaluates the polynomials of one of them on another domain (not in
/// Plonky3): the commitment, and the values, which are those of the interpolants of the matrix's columns, column by
/// column. `Refused` comes exactly where the scheme refuses to commit. `OutOfMemory` may come in place of any answer.
pub fn committed_and_evaluated<E: ExtensionField<P::Val>, C, P: UnivariateStarkPcs<E, C>>(
    alloc: Global,
    pcs: &P,
    evaluations: Vec<(P::Domain, RowMajorMatrix<P::Val>)>,
    index: usize,
    domain: P::Domain,
) -> Result<(P::Commitment, RowMajorMatrix<P::Val>), PcsFailure<P::ProverError>>
    requires { index < length evaluations.items }
    ensures refusal { RefusedBy (P.commit_fault pcs.now evaluations.items) result }
    ensures committed { IfOk result (λ w. P.commits pcs.now evaluations.items w.0) }
    ensures values { IfOk result
        (λ w. (d : P.Domain) (m : Rows P.Val) → slice_get evaluations.items index ≡ Some (d, m)
        → AreExtended P.Val.ring (P.Domain.point_at d) m (P.Domain.points domain)
        (P.Domain.point_at domain) w.1) }
{
    let (commitment, prover_data) = pcs.commit(alloc, evaluations)?;
    let values = pcs.get_evaluations_on_domain(alloc, &prover_data, index, domain)?;
    Ok((commitment, values))
}
