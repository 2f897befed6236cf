//! What verifiers refuse, as values: a refusal has one cause.
ghost use Rattle.std.specs.Prelude.{◌≡◌, ◌↔◌, Option, None, List, All, IfOk, IfSome};
ghost use Rattle.commit_rows.specs.Batches.{lists};
ghost use Rattle.commit_core.specs.Claims.{CommitmentClaim};
ghost use Rattle.example_commit.specs.Causes.{IsCause};

use commit_core::{CommitmentOpening, Pcs, PcsFailure, PolynomialSpace};
use commit_rows::{BatchOpeningRef, Mmcs};
use p3_field::{
    BasedVectorSpace, ExtensionField, Field, FieldCore, Mem, PrimeCharacteristicRing, RingCore,
    TwoAdicCore,
};
use p3_matrix::Dimensions;
use std::alloc::Global;

/// Why the verifier refuses claims (not in Plonky3): None exactly where the proof opens them from the challenger's state,
/// and else the first fault, which is the only one. Where it opens them, the challenger is then in the state that
/// `after_verify` names. The only error is running out of memory.
pub fn fault_of_claims<E: ExtensionField<P::Val>, C, P: Pcs<E, C>>(
    alloc: Global,
    pcs: &P,
    claims: Vec<CommitmentOpening<E, P::Commitment, P::Domain>>,
    proof: &P::Proof,
    challenger: &mut C,
) -> Mem<Option<P::Error>>
    ensures accepted { IfOk result
        (λ o. (o ≡ None) ↔ P.opens pcs.now challenger.old claims.items proof.now) }
    ensures cause { IfOk result
        (λ o. IfSome o (IsCause (P.fault pcs.now challenger.old claims.items proof.now))) }
    ensures after { IfOk result
        (λ o. o ≡ None → challenger.new
        ≡ P.after_verify pcs.now challenger.old claims.items proof.now) }
{
    match pcs.verify(alloc, claims, proof, challenger) {
        Ok(()) => Ok(None),
        Err(PcsFailure::Refused(fault)) => Ok(Some(fault)),
        Err(PcsFailure::OutOfMemory) => Err(std::alloc::AllocError),
    }
}

/// Why the verifier refuses rows (not in Plonky3): None exactly where the proof shows them, and else the first fault, which
/// is the only one. The only error is running out of memory.
pub fn fault_of_rows<T: Copy + Eq, M: Mmcs<T>>(
    alloc: Global,
    mmcs: &M,
    commitment: &M::Commitment,
    dimensions: &[Dimensions],
    index: usize,
    opening: BatchOpeningRef<'_, T, M>,
) -> Mem<Option<M::Error>>
    requires { All (λ d. M.takes d.width) dimensions.now }
    ensures accepted { IfOk result
        (λ o. (o ≡ None) ↔ M.opens mmcs.now commitment.now dimensions.now index
        (lists opening.entry.opened_values.now) opening.entry.opening_proof.now) }
    ensures cause { IfOk result
        (λ o. IfSome o (IsCause (M.fault mmcs.now commitment.now dimensions.now index
        (lists opening.entry.opened_values.now) opening.entry.opening_proof.now))) }
{
    match mmcs.verify_batch(alloc, commitment, dimensions, index, opening) {
        Ok(()) => Ok(None),
        Err(PcsFailure::Refused(first)) => Ok(Some(first)),
        Err(PcsFailure::OutOfMemory) => Err(std::alloc::AllocError),
    }
}

/// Verifies rows twice (not in Plonky3): the first fault of each time, or None exactly where the proof shows them. Both
/// answers are one.
pub fn rows_verified_twice<T: Copy + Eq, M: Mmcs<T>>(
    alloc: Global,
    mmcs: &M,
    commitment: &M::Commitment,
    dimensions: &[Dimensions],
    index: usize,
    opening: BatchOpeningRef<'_, T, M>,
) -> Mem<(Option<M::Error>, Option<M::Error>)>
    requires { All (λ d. M.takes d.width) dimensions.now }
    ensures accepted { IfOk result
        (λ w. (w.0 ≡ None) ↔ M.opens mmcs.now commitment.now dimensions.now index
        (lists opening.entry.opened_values.now) opening.entry.opening_proof.now) }
    ensures cause { IfOk result
        (λ w. IfSome w.0 (IsCause
        (M.fault mmcs.now commitment.now dimensions.now index
        (lists opening.entry.opened_values.now) opening.entry.opening_proof.now))) }
    ensures one { IfOk result (λ w. w.0 ≡ w.1) }
{
    let first = fault_of_rows(alloc, mmcs, commitment, dimensions, index, opening)?;
    let second = fault_of_rows(alloc, mmcs, commitment, dimensions, index, opening)?;
    Ok((first, second))
}
