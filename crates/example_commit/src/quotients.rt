//! A quotient's path: its parts are extended and committed to, by the calls for each step and by the one call for all.
ghost use Rattle.std.specs.Prelude.{◌≡◌, ◌≤◌, List, IsFalse, IfOk};
ghost use Rattle.std.specs.Int.{IsPowerOfTwo};
ghost use Rattle.p3_matrix.specs.Matrix.{Rows, height};
ghost use Rattle.commit_core.specs.Commitments.{AreParts, IsCommitment};
ghost use Rattle.commit_core.specs.Failure.{RefusedBy};

use commit_core::{Pcs, PcsFailure, PolynomialSpace, UnivariateStarkPcs, paired};
use p3_field::{
    BasedVectorSpace, ExtensionField, Field, FieldCore, Mem, PrimeCharacteristicRing, RingCore,
    TwoAdicCore,
};
use p3_matrix::RowMajorMatrix;
use std::alloc::Global;

// The parts of a domain, each with its rows.
fn parts_of<D: PolynomialSpace>(
    alloc: Global,
    domain: &D,
    evaluations: RowMajorMatrix<D::Val>,
    num_chunks: usize,
) -> Mem<Vec<(D, RowMajorMatrix<D::Val>)>>
    requires power { IsPowerOfTwo num_chunks }
    requires fits { num_chunks ≤ D.points domain.now }
    requires height { height evaluations ≡ D.points domain.now }
    ensures { IfOk result (λ v.
        AreParts (D.part domain.now num_chunks) evaluations num_chunks v.items) }
{
    let rows = domain.split_evals(alloc, num_chunks, evaluations)?;
    let domains = domain.split_domains(alloc, num_chunks)?;
    let parts = paired(alloc, &domains, rows)?;
    Ok(parts)
}

// Commits to the parts of a quotient by the calls for each step. It is refused exactly as `commit_quotient` is.
fn committed_by_parts<E: ExtensionField<P::Val>, C, P: UnivariateStarkPcs<E, C>>(
    alloc: Global,
    pcs: &P,
    domain: &P::Domain,
    evaluations: RowMajorMatrix<P::Val>,
    num_chunks: usize,
) -> Result<(P::Commitment, P::ProverData), PcsFailure<P::ProverError>>
    requires power { IsPowerOfTwo num_chunks }
    requires fits { num_chunks ≤ P.Domain.points domain.now }
    requires height { height evaluations ≡ P.Domain.points domain.now }
    ensures refusal { RefusedBy (P.quotient_fault pcs.now domain.now evaluations num_chunks)
        result }
    ensures committed { IfOk result
        (λ w. (parts : List (P.Domain × Rows P.Val))
        × AreParts (P.Domain.part domain.now num_chunks) evaluations num_chunks parts
        × IsCommitment P.Val.ring P.Domain.points P.Domain.point_at (P.commits pcs.now)
        (P.made pcs.now) (P.holds pcs.now) parts w) }
{
    let parts = parts_of(alloc, domain, evaluations, num_chunks)?;
    let ldes = pcs.get_quotient_ldes(alloc, parts, num_chunks)?;
    pcs.commit_ldes(alloc, ldes)
}

/// Commits to the parts of a quotient, which is given by its values on a domain, by the calls for each step, and again by
/// `commit_quotient` (not in Plonky3): the two commitments, each to parts of the domain with their rows. Where nothing is
/// masked, each is the scheme's one function of such parts.
///
/// `Refused` comes exactly where `quotient_fault` names a cause: both ways are refused alike. `OutOfMemory` may come in
/// place of any answer.
pub fn quotient_committed_twice<E: ExtensionField<P::Val>, C, P: UnivariateStarkPcs<E, C>>(
    alloc: Global,
    pcs: &P,
    domain: P::Domain,
    evaluations: RowMajorMatrix<P::Val>,
    num_chunks: usize,
) -> Result<(P::Commitment, P::Commitment), PcsFailure<P::ProverError>>
    requires power { IsPowerOfTwo num_chunks }
    requires fits { num_chunks ≤ P.Domain.points domain }
    requires height { height evaluations ≡ P.Domain.points domain }
    ensures refusal { RefusedBy (P.quotient_fault pcs.now domain evaluations num_chunks) result }
    ensures by_steps { IfOk result
        (λ w. (parts : List (P.Domain × Rows P.Val))
        × AreParts (P.Domain.part domain num_chunks) evaluations num_chunks parts
        × P.commits pcs.now parts w.0
        × (IsFalse P.ZK → w.0 ≡ P.commitment_of pcs.now parts)) }
    ensures at_once { IfOk result
        (λ w. (parts : List (P.Domain × Rows P.Val))
        × AreParts (P.Domain.part domain num_chunks) evaluations num_chunks parts
        × P.commits pcs.now parts w.1
        × (IsFalse P.ZK → w.1 ≡ P.commitment_of pcs.now parts)) }
{
    let copy = evaluations.try_clone(alloc)?;
    let (steps, _data) = committed_by_parts(alloc, pcs, &domain, evaluations, num_chunks)?;
    match pcs.commit_quotient(alloc, domain, copy, num_chunks) {
        Ok((once, _data)) => Ok((steps, once)),
        Err(PcsFailure::OutOfMemory) => Err(PcsFailure::OutOfMemory),
        Err(PcsFailure::Refused(_)) => unreachable!(),
    }
}
