//! Rounds of which the last has preprocessed columns, by the calls for such rounds.
ghost use Rattle.std.specs.Prelude.{◌≡◌, ◌↔◌, Option, None, List, [], ◌∷◌, ◌++◌, IsFalse, IfOk, IsSome, IfSome};
ghost use Rattle.commit_core.specs.Failure.{NoneOf, RefusedBy, FaultInTurn, NoneInTurn, IfRefused};
ghost use Rattle.commit_core.specs.Periodic.{EachFrom};
ghost use Rattle.example_commit.specs.Causes.{IsCauseOfFirstRefused};
ghost use Rattle.example_commit.specs.Rounds.{RoundData, CommittedRoundData, IsCommittedRound, requests_of, IsRoundClaimed, AreFree};

use crate::rounds::{CommittedRound, Round, claims_of, committed_rounds, domains_of, requests};
use crate::several::VerifiedRounds;
use commit_core::{CommitmentOpening, Pcs, PcsFailure, PolynomialSpace, UnivariateStarkPcs};
use p3_field::{
    BasedVectorSpace, ExtensionField, Field, FieldCore, Mem, PrimeCharacteristicRing, RingCore,
    TwoAdicCore,
};
use std::alloc::Global;

// Commits to the matrices of each round, and then to preprocessed ones. It is refused exactly for the first round that is.
fn committed_with_preprocessing<E: ExtensionField<P::Val>, C, P: UnivariateStarkPcs<E, C>>(
    alloc: Global,
    pcs: &P,
    rounds: Vec<Round<P::Domain, P::Val, E>>,
    preprocessed: Round<P::Domain, P::Val, E>,
) -> Result<
    Vec<CommittedRound<P::Domain, E, P::Commitment, P::ProverData>>,
    PcsFailure<P::ProverError>,
>
    ensures refusal { RefusedBy
        (IsCauseOfFirstRefused (λ q. P.commit_fault pcs.now q.evaluations)
        (rounds.items ++ preprocessed ∷ [])) result }
    ensures prover_rounds { IfOk result
        (λ v. EachFrom (rounds.items ++ preprocessed ∷ []) v.items
        (IsCommittedRound P.Val.ring P.Domain.points P.Domain.point_at (P.commits pcs.now)
        (P.made pcs.now) (P.holds pcs.now))) }
{
    let mut prover_rounds = committed_rounds(alloc, pcs, rounds)?;
    prover_rounds.push(committed_preprocessing(alloc, pcs, preprocessed)?)?;
    Ok(prover_rounds)
}

// Commits to the matrices of a round of preprocessed columns.
fn committed_preprocessing<E: ExtensionField<P::Val>, C, P: UnivariateStarkPcs<E, C>>(
    alloc: Global,
    pcs: &P,
    round: Round<P::Domain, P::Val, E>,
) -> Result<CommittedRound<P::Domain, E, P::Commitment, P::ProverData>, PcsFailure<P::ProverError>>
    ensures refusal { RefusedBy (P.commit_fault pcs.now round.evaluations) result }
    ensures prover_rounds { IfOk result
        (IsCommittedRound P.Val.ring P.Domain.points P.Domain.point_at (P.commits pcs.now)
        (P.made pcs.now) (P.holds pcs.now) round) }
{
    let Round {
        evaluations,
        points,
    } = round;
    let domains = domains_of(alloc, &evaluations)?;
    let (commitment, prover_data) = pcs.commit_preprocessing(alloc, evaluations)?;
    Ok(CommittedRound {
        commitment,
        prover_data,
        domains,
        points,
    })
}

// `fault_of_claims`, where the claims with this number are on preprocessed columns.
fn fault_with_preprocessing<E: ExtensionField<P::Val>, C, P: UnivariateStarkPcs<E, C>>(
    alloc: Global,
    pcs: &P,
    claims: Vec<CommitmentOpening<E, P::Commitment, P::Domain>>,
    proof: &P::Proof,
    challenger: &mut C,
    place: Option<usize>,
) -> Mem<Option<P::Error>>
    ensures accepted { IfOk result
        (λ o. (o ≡ None) ↔ P.opens pcs.now challenger.old claims.items proof.now) }
    ensures after { IfOk result
        (λ o. o ≡ None → challenger.new
        ≡ P.after_verify pcs.now challenger.old claims.items proof.now) }
{
    match pcs.verify_with_preprocessing(alloc, claims, proof, challenger, place) {
        Ok(()) => Ok(None),
        Err(PcsFailure::Refused(fault)) => Ok(Some(fault)),
        Err(PcsFailure::OutOfMemory) => Err(std::alloc::AllocError),
    }
}

// Opens what is kept of rounds, of which the one with this number has preprocessed columns, and verifies the opening.
fn committed_verified<E: ExtensionField<P::Val>, C: Copy, P: UnivariateStarkPcs<E, C>>(
    alloc: Global,
    pcs: &P,
    prover_rounds: Vec<CommittedRound<P::Domain, E, P::Commitment, P::ProverData>>,
    place: Option<usize>,
    challenger: C,
) -> Result<
    Option<VerifiedRounds<E, P::Commitment, P::Domain, P::Proof, C>>,
    PcsFailure<P::ProverError>,
>
    requires masks { IsFalse P.ZK }
    requires prover_rounds { (rs : List (RoundData P.Domain P.Val E))
        × EachFrom rs prover_rounds.items
        (IsCommittedRound P.Val.ring P.Domain.points P.Domain.point_at (P.commits pcs.now)
        (P.made pcs.now) (P.holds pcs.now)) }
    ensures refused { IfRefused result (P.open_fault pcs.now (requests_of prover_rounds.items)) }
    ensures granted { IfOk result
        (λ _. NoneOf (P.open_fault pcs.now (requests_of prover_rounds.items))) }
    ensures accepted { IfOk result (λ o. (rs : List (RoundData P.Domain P.Val E))
        → EachFrom rs prover_rounds.items
        (IsCommittedRound P.Val.ring P.Domain.points P.Domain.point_at (P.commits pcs.now)
        (P.made pcs.now) (P.holds pcs.now))
        → AreFree (P.excludes pcs.now) rs → IsSome o) }
    ensures claimed { IfOk result (λ o. (rs : List (RoundData P.Domain P.Val E))
        → EachFrom rs prover_rounds.items
        (IsCommittedRound P.Val.ring P.Domain.points P.Domain.point_at (P.commits pcs.now)
        (P.made pcs.now) (P.holds pcs.now))
        → IfSome o (λ v. EachFrom rs v.claims.items
        (IsRoundClaimed P.Val.ring E.ring E.embed P.Domain.point_at (P.commits pcs.now)))) }
    ensures opens { IfOk result
        (λ o. IfSome o (λ v. P.opens pcs.now challenger v.claims.items v.proof)) }
    ensures verifier { IfOk result
        (λ o. IfSome o (λ v. v.verifier
        ≡ P.after_verify pcs.now challenger v.claims.items v.proof)) }
    ensures one_state { IfOk result (λ o. IfSome o (λ v. v.prover ≡ v.verifier)) }
{
    let requests = requests(alloc, &prover_rounds)?;
    let mut prover = challenger;
    let (values, proof) = pcs.open_with_preprocessing(alloc, requests, &mut prover, place)?;
    let claims = claims_of(alloc, pcs, &prover_rounds, &values)?;
    let asked = claims_of(alloc, pcs, &prover_rounds, &values)?;
    let mut verifier = challenger;
    match fault_with_preprocessing(alloc, pcs, asked, &proof, &mut verifier, place)? {
        None => Ok(Some(VerifiedRounds {
            claims,
            proof,
            prover,
            verifier,
        })),
        Some(_) => Ok(None),
    }
}

/// Commits to the matrices of each round, and to preprocessed ones by `commit_preprocessing`, opens all of them at their
/// points by `open_with_preprocessing`, and verifies the opening by `verify_with_preprocessing` (not in Plonky3): what was
/// claimed, or None where the verifier refuses it. The preprocessed round is the last. The contract is that of
/// `rounds_verified` over all rounds. The scheme masks nothing.
pub fn preprocessed_verified<E: ExtensionField<P::Val>, C: Copy, P: UnivariateStarkPcs<E, C>>(
    alloc: Global,
    pcs: &P,
    rounds: Vec<Round<P::Domain, P::Val, E>>,
    preprocessed: Round<P::Domain, P::Val, E>,
    challenger: C,
) -> Result<
    Option<VerifiedRounds<E, P::Commitment, P::Domain, P::Proof, C>>,
    PcsFailure<P::ProverError>,
>
    requires { IsFalse P.ZK }
    ensures refused { IfRefused result
        (FaultInTurn (IsCauseOfFirstRefused (λ q. P.commit_fault pcs.now q.evaluations)
        (rounds.items ++ preprocessed ∷ []))
        (λ ks. EachFrom (rounds.items ++ preprocessed ∷ []) ks
        (IsCommittedRound P.Val.ring P.Domain.points P.Domain.point_at (P.commits pcs.now)
        (P.made pcs.now) (P.holds pcs.now))) (λ ks. P.open_fault pcs.now (requests_of ks))) }
    ensures granted { IfOk result
        (λ _. NoneInTurn (IsCauseOfFirstRefused (λ q. P.commit_fault pcs.now q.evaluations)
        (rounds.items ++ preprocessed ∷ []))
        (λ ks. EachFrom (rounds.items ++ preprocessed ∷ []) ks
        (IsCommittedRound P.Val.ring P.Domain.points P.Domain.point_at (P.commits pcs.now)
        (P.made pcs.now) (P.holds pcs.now))) (λ ks. P.open_fault pcs.now (requests_of ks))) }
    ensures accepted { AreFree (P.excludes pcs.now) (rounds.items ++ preprocessed ∷ [])
        → IfOk result IsSome }
    ensures claimed { IfOk result
        (λ o. IfSome o (λ v. EachFrom (rounds.items ++ preprocessed ∷ []) v.claims.items
        (IsRoundClaimed P.Val.ring E.ring E.embed P.Domain.point_at (P.commits pcs.now)))) }
    ensures opens { IfOk result
        (λ o. IfSome o (λ v. P.opens pcs.now challenger v.claims.items v.proof)) }
    ensures verifier { IfOk result
        (λ o. IfSome o (λ v. v.verifier
        ≡ P.after_verify pcs.now challenger v.claims.items v.proof)) }
    ensures one_state { IfOk result (λ o. IfSome o (λ v. v.prover ≡ v.verifier)) }
{
    let place = Some(rounds.len());
    let prover_rounds = committed_with_preprocessing(alloc, pcs, rounds, preprocessed)?;
    committed_verified(alloc, pcs, prover_rounds, place, challenger)
}
