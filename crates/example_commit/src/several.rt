//! Several matrices at several points in several rounds, from the commitments to the verifier's answer.
ghost use Rattle.std.specs.Prelude.{◌≡◌, List, IfOk, IsSome, IfSome};
ghost use Rattle.commit_core.specs.Failure.{FaultInTurn, NoneInTurn, IfRefused};
ghost use Rattle.commit_core.specs.Periodic.{EachFrom};
ghost use Rattle.example_commit.specs.Causes.{IsCauseOfFirstRefused};
ghost use Rattle.example_commit.specs.Rounds.{CommittedRoundData, IsCommittedRound, requests_of, IsRoundClaimed, AreFree};

use crate::faults::fault_of_claims;
use crate::rounds::{CommittedRound, Round, claims_of, committed_rounds, requests};
use commit_core::{CommitmentOpening, Pcs, PcsFailure, PolynomialSpace};
use p3_field::{
    BasedVectorSpace, ExtensionField, Field, FieldCore, PrimeCharacteristicRing, RingCore,
    TwoAdicCore,
};
use std::alloc::Global;

/// Claims that a verifier accepted, with the proof and the challenger's states at the end (not in
/// Plonky3).
#[derive(Drop)]
pub struct VerifiedRounds<E, Commitment, Domain, Proof, C> {
    /// The claims, round by round.
    pub claims: Vec<CommitmentOpening<E, Commitment, Domain>>,
    /// The proof that opens them.
    pub proof: Proof,
    /// The challenger after the opening.
    pub prover: C,
    /// The challenger after the verification.
    pub verifier: C,
}

/// Commits to the matrices of each round, opens all of them at their points, and verifies the opening (not in Plonky3): what
/// was claimed, or None where the verifier refuses it. It refuses only where a point is excluded. The claims have a
/// commitment to each round's matrices, and the values of the interpolants of their columns at the points. From `challenger`,
/// the transcript's state before the opening, the proof opens these claims, and both sides end in one state.
///
/// `Refused` comes exactly where the scheme refuses to commit to a round, for the first, or else to open what it gave for
/// commitments to them. `OutOfMemory` may come in place of any answer.
pub fn rounds_verified<E: ExtensionField<P::Val>, C: Copy, P: Pcs<E, C>>(
    alloc: Global,
    pcs: &P,
    rounds: Vec<Round<P::Domain, P::Val, E>>,
    challenger: C,
) -> Result<
    Option<VerifiedRounds<E, P::Commitment, P::Domain, P::Proof, C>>,
    PcsFailure<P::ProverError>,
>
    ensures refused { IfRefused result
        (FaultInTurn (IsCauseOfFirstRefused (λ q. P.commit_fault pcs.now q.evaluations)
        rounds.items)
        (λ ks. EachFrom rounds.items ks
        (IsCommittedRound P.Val.ring P.Domain.points P.Domain.point_at (P.commits pcs.now)
        (P.made pcs.now) (P.holds pcs.now)))
        (λ ks. P.open_fault pcs.now (requests_of ks))) }
    ensures granted { IfOk result
        (λ _. NoneInTurn (IsCauseOfFirstRefused (λ q. P.commit_fault pcs.now q.evaluations)
        rounds.items)
        (λ ks. EachFrom rounds.items ks
        (IsCommittedRound P.Val.ring P.Domain.points P.Domain.point_at (P.commits pcs.now)
        (P.made pcs.now) (P.holds pcs.now)))
        (λ ks. P.open_fault pcs.now (requests_of ks))) }
    ensures accepted { AreFree (P.excludes pcs.now) rounds.items → IfOk result IsSome }
    ensures claimed { IfOk result
        (λ o. IfSome o (λ v. EachFrom rounds.items v.claims.items
        (IsRoundClaimed P.Val.ring E.ring E.embed P.Domain.point_at (P.commits pcs.now)))) }
    ensures opens { IfOk result
        (λ o. IfSome o (λ v. P.opens pcs.now challenger v.claims.items v.proof)) }
    ensures verifier { IfOk result
        (λ o. IfSome o (λ v. v.verifier
        ≡ P.after_verify pcs.now challenger v.claims.items v.proof)) }
    ensures one_state { IfOk result (λ o. IfSome o (λ v. v.prover ≡ v.verifier)) }
{
    let prover_rounds = committed_rounds(alloc, pcs, rounds)?;
    let requests = requests(alloc, &prover_rounds)?;
    let mut prover = challenger;
    let (values, proof) = pcs.open(alloc, requests, &mut prover)?;
    let claims = claims_of(alloc, pcs, &prover_rounds, &values)?;
    let asked = claims_of(alloc, pcs, &prover_rounds, &values)?;
    let mut verifier = challenger;
    match fault_of_claims(alloc, pcs, asked, &proof, &mut verifier)? {
        None => Ok(Some(VerifiedRounds {
            claims,
            proof,
            prover,
            verifier,
        })),
        Some(_) => Ok(None),
    }
}
