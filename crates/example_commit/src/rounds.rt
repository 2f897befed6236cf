//! Rounds of matrices: the prover data of them, and the claims on what is opened.
ghost use Rattle.std.specs.Prelude.{◌≡◌, List, length, map, IfOk};
ghost use Rattle.commit_core.specs.Failure.{RefusedBy};
ghost use Rattle.commit_core.specs.Periodic.{EachFrom};
ghost use Rattle.commit_core.specs.Laws.OneItem.{matrix_in, round_in};
ghost use Rattle.example_commit.specs.Causes.{IsCauseOfFirstRefused};
ghost use Rattle.example_commit.specs.Rounds.{RoundData, CommittedRoundData, IsCommittedRound, requests_of, claims_at as point_claims, matrix_claims, round_claims, HaveRoundShape};

use commit_core::{
    CommitmentOpening, MatrixOpening, OpeningRequest, Pcs, PcsFailure, PointOpening,
    PolynomialSpace,
};
use p3_field::{
    BasedVectorSpace, ExtensionField, Field, FieldCore, Mem, PrimeCharacteristicRing, RingCore,
    TwoAdicCore,
};
use p3_matrix::RowMajorMatrix;
use std::alloc::Global;
use std::marker::Model;

/// Matrices that are committed to together, and the points at which each is opened (not in Plonky3).
#[derive(Drop)]
pub struct Round<D, F, E> {
    /// The matrices, each with its domain.
    pub evaluations: Vec<(D, RowMajorMatrix<F>)>,
    /// A list of points for each matrix.
    pub points: Vec<Vec<E>>,
}

impl<D, F, E> Model for Round<D, F, E> {
    ghost Value = { RoundData D F E };

    ghost view = { λ s. record {
      evaluations = s.evaluations.items;
      points = map (λ v. v.items) s.points.items;
    } };
}

// The prover data of a round that it committed to.
#[derive(Drop)]
pub(crate) struct CommittedRound<D, E, Commitment, ProverData> {
    pub commitment: Commitment,
    pub prover_data: ProverData,
    pub domains: Vec<D>,
    pub points: Vec<Vec<E>>,
}

impl<D, E, Commitment, ProverData> Model for CommittedRound<D, E, Commitment, ProverData> {
    ghost Value = { CommittedRoundData D E Commitment ProverData };

    ghost view = { λ s. record {
      commitment = s.commitment;
      prover_data = s.prover_data;
      domains = s.domains.items;
      points = map (λ v. v.items) s.points.items;
    } };
}

// The domain of each matrix.
pub(crate) fn domains_of<D: Copy, F>(
    alloc: Global,
    evaluations: &[(D, RowMajorMatrix<F>)],
) -> Mem<Vec<D>>
    ensures { IfOk result (λ v. v.items ≡ map (λ e. e.0) evaluations.now) }
{
    evaluations.iter().map(|e| e.0).collect(alloc)
}

// Commits to the matrices of a round.
fn committed_round<E: ExtensionField<P::Val>, C, P: Pcs<E, C>>(
    alloc: Global,
    pcs: &P,
    round: Round<P::Domain, P::Val, E>,
) -> Result<CommittedRound<P::Domain, E, P::Commitment, P::ProverData>, PcsFailure<P::ProverError>>
    ensures refusal { RefusedBy (P.commit_fault pcs.now round.evaluations) result }
    ensures prover_rounds { IfOk result
        (IsCommittedRound P.Val.ring P.Domain.points P.Domain.point_at (P.commits pcs.now)
        (P.made pcs.now) (P.holds pcs.now) round) }
{
    let Round {
        evaluations,
        points,
    } = round;
    let domains = domains_of(alloc, &evaluations)?;
    let (commitment, prover_data) = pcs.commit(alloc, evaluations)?;
    Ok(CommittedRound {
        commitment,
        prover_data,
        domains,
        points,
    })
}

// Commits to the matrices of each round, in order. It is refused exactly for the first round that is.
pub(crate) fn committed_rounds<E: ExtensionField<P::Val>, C, P: Pcs<E, C>>(
    alloc: Global,
    pcs: &P,
    rounds: Vec<Round<P::Domain, P::Val, E>>,
) -> Result<
    Vec<CommittedRound<P::Domain, E, P::Commitment, P::ProverData>>,
    PcsFailure<P::ProverError>,
>
    ensures refusal { RefusedBy
        (IsCauseOfFirstRefused (λ q. P.commit_fault pcs.now q.evaluations) rounds.items) result }
    ensures prover_rounds { IfOk result
        (λ v. EachFrom rounds.items v.items
        (IsCommittedRound P.Val.ring P.Domain.points P.Domain.point_at (P.commits pcs.now)
        (P.made pcs.now) (P.holds pcs.now))) }
{
    let mut prover_rounds = Vec::with_capacity(alloc, rounds.len())?;
    for round in rounds {
        prover_rounds.push(committed_round(alloc, pcs, round)?)?;
    }
    Ok(prover_rounds)
}

// The requests to open what is kept at the rounds' points.
pub(crate) fn requests<D: Drop, E: Copy, Commitment: Drop, ProverData: Drop>(
    alloc: Global,
    prover_rounds: &[CommittedRound<D, E, Commitment, ProverData>],
) -> Mem<Vec<OpeningRequest<'_, ProverData, E>>>
    ensures { IfOk result (λ v. v.items ≡ requests_of prover_rounds.now) }
{
    let mut requests = Vec::with_capacity(alloc, prover_rounds.len())?;
    for round in prover_rounds {
        let points = copied(alloc, &round.points)?;
        requests.push(OpeningRequest {
            prover_data: &round.prover_data,
            points,
        })?;
    }
    Ok(requests)
}

// Equal lists of points.
fn copied<E: Copy>(alloc: Global, points: &[Vec<E>]) -> Mem<Vec<Vec<E>>>
    ensures { IfOk result (λ v. map (λ v. v.items) v.items ≡ map (λ v. v.items) points.now) }
{
    let mut copies = Vec::with_capacity(alloc, points.len())?;
    for list in points {
        copies.push(Vec::from_slice(alloc, list)?)?;
    }
    Ok(copies)
}

// The claims that a matrix has these values at the points.
fn claims_at<E: Copy>(alloc: Global, points: &[E], values: &[Vec<E>]) -> Mem<Vec<PointOpening<E>>>
    requires { length values.now ≡ length points.now }
    ensures { IfOk result (λ v. v.items ≡ point_claims points.now (map (λ v. v.items) values.now)) }
{
    let mut claims = Vec::with_capacity(alloc, values.len())?;
    for (index, list) in values.iter().enumerate() {
        let values = Vec::from_slice(alloc, list)?;
        claims.push(PointOpening {
            point: points[index],
            values,
        })?;
    }
    Ok(claims)
}

// The claims that the matrices of a round have these values.
fn claims_on<D: Copy, E: Copy>(
    alloc: Global,
    domains: &[D],
    points: &[Vec<E>],
    values: &[Vec<Vec<E>>],
) -> Mem<Vec<MatrixOpening<E, D>>>
    requires { HaveRoundShape domains.now (map (λ v. v.items) points.now)
        (map matrix_in values.now) }
    ensures { IfOk result (λ v.
        v.items ≡ matrix_claims domains.now (map (λ v. v.items) points.now)
        (map matrix_in values.now)) }
{
    let mut matrices = Vec::with_capacity(alloc, values.len())?;
    for (index, opened) in values.iter().enumerate() {
        let points = claims_at(alloc, &points[index], opened)?;
        matrices.push(MatrixOpening {
            domain: domains[index],
            points,
        })?;
    }
    Ok(matrices)
}

// The claims that the matrices of all rounds have these values.
pub(crate) fn claims_of<E: ExtensionField<P::Val>, C, P: Pcs<E, C>>(
    alloc: Global,
    pcs: &P,
    prover_rounds: &[CommittedRound<P::Domain, E, P::Commitment, P::ProverData>],
    values: &[Vec<Vec<Vec<E>>>],
) -> Mem<Vec<CommitmentOpening<E, P::Commitment, P::Domain>>>
    requires count { length values.now ≡ length prover_rounds.now }
    requires shapes { EachFrom prover_rounds.now (map round_in values.now)
        (λ k ys. HaveRoundShape k.domains k.points ys) }
    ensures { IfOk result (λ v.
        v.items ≡ round_claims prover_rounds.now (map round_in values.now)) }
{
    let mut claims = Vec::with_capacity(alloc, values.len())?;
    for (index, opened) in values.iter().enumerate() {
        let round = &prover_rounds[index];
        let matrices = claims_on(alloc, &round.domains, &round.points, opened)?;
        let commitment = pcs.clone_commitment(alloc, &round.commitment)?;
        claims.push(CommitmentOpening {
            commitment,
            matrices,
        })?;
    }
    Ok(claims)
}
