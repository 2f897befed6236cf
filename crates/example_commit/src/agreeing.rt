//! Two calls that commit, where nothing is masked.
ghost use Rattle.std.specs.Prelude.{◌≡◌, ◌⊎◌, IsFalse, IfOk};
ghost use Rattle.commit_core.specs.Failure.{NoneOf, RefusedBy};

use commit_core::{Pcs, PcsFailure, PolynomialSpace, UnivariateStarkPcs};
use p3_field::{
    BasedVectorSpace, ExtensionField, Field, FieldCore, PrimeCharacteristicRing, RingCore,
    TwoAdicCore,
};
use p3_matrix::RowMajorMatrix;
use std::alloc::Global;

/// Commits to the first matrices by `commit` and to the second by `commit_preprocessing` (not in Plonky3): the two
/// commitments. Where nothing is masked, each is the scheme's one function of its matrices, so that equal matrices have
/// equal commitments. `Refused` comes exactly where the scheme refuses to commit to the first, or else to the second.
pub fn committed_both_ways<E: ExtensionField<P::Val>, C, P: UnivariateStarkPcs<E, C>>(
    alloc: Global,
    pcs: &P,
    first: Vec<(P::Domain, RowMajorMatrix<P::Val>)>,
    second: Vec<(P::Domain, RowMajorMatrix<P::Val>)>,
) -> Result<(P::Commitment, P::Commitment), PcsFailure<P::ProverError>>
    ensures refusal { RefusedBy
        (λ e. P.commit_fault pcs.now first.items e
        ⊎ (NoneOf (P.commit_fault pcs.now first.items) × P.commit_fault pcs.now second.items e))
        result }
    ensures commits { IfOk result
        (λ w. P.commits pcs.now first.items w.0 × P.commits pcs.now second.items w.1) }
    ensures function { IsFalse P.ZK
        → IfOk result (λ w. (w.0 ≡ P.commitment_of pcs.now first.items)
        × (w.1 ≡ P.commitment_of pcs.now second.items)) }
    ensures alike { IsFalse P.ZK → first.items ≡ second.items → IfOk result (λ w. w.0 ≡ w.1) }
{
    let (commitment, _data) = pcs.commit(alloc, first)?;
    let (again, _data) = pcs.commit_preprocessing(alloc, second)?;
    Ok((commitment, again))
}
