//! Opening: the values of committed polynomials at points.
ghost use Rattle.std.specs.Prelude.{◌≡◌, ℕ, ◌-◌, ◌^◌, ◌<◌, ◌≤◌, List, All, length, map, IfOk, MatchOption};
ghost use Rattle.p3_field.specs.Domain.{CosetData};
ghost use Rattle.p3_matrix.specs.Matrix.{Rows, height};
ghost use Rattle.commit_core.specs.Failure.{NoneOf, RefusedBy};
ghost use Rattle.commit_core.specs.Commitments.{Committed, OpenedCommitment, AreOpenedCommitments, IsOpening, nested, opened, values_of};
ghost use Rattle.commit_core.specs.Periodic.{EachFrom};
ghost use Rattle.plain_pcs.specs.Scheme.{PlainCommitmentData, scheme};
ghost use Rattle.plain_pcs.specs.Checks.{Opens};
ghost use Rattle.plain_pcs.specs.Holding.{IsMade, AreHolding};
ghost use Rattle.p3_field.specs.Checks.{IsFirstWithout};
ghost use Rattle.plain_pcs.specs.Refusals.{OpenFault, IfOutOfMemory};
ghost use Rattle.plain_pcs.specs.Opening.{HaveMatrixValues, EachHasValues, opened_each};

use crate::commitment::PlainProverData;
use crate::error::PlainProverError;
use crate::evaluating::rows_on;
use commit_core::{
    OpenedValues, OpenedValuesForMatrix, OpenedValuesForRound, OpeningRequest, PcsFailure,
};
use p3_field::{
    ExtensionField, Field, FieldCore, Mem, PrimeCharacteristicRing, RingCore, TwoAdicCore,
    TwoAdicField, TwoAdicMultiplicativeCoset,
};
use p3_matrix::{RowMajorMatrix, interpolate_coset};
use std::alloc::Global;

/// The values of committed polynomials at points (not in Plonky3), in the order of the requests, of their matrices, of
/// the points, and of the columns. `Refused` names the first request whose lists of points aren't one per matrix.
pub(crate) fn open<F: TwoAdicField, E: ExtensionField<F>>(
    alloc: Global,
    log_blowup: usize,
    requests: &[OpeningRequest<'_, PlainProverData<F>, E>],
) -> Result<OpenedValues<E>, PcsFailure<PlainProverError>>
    requires made { All (λ r. IsMade r.prover_data) requests.now }
    ensures refusal { RefusedBy (OpenFault requests.now) result }
    ensures searched { IfOutOfMemory result (NoneOf (OpenFault requests.now)) }
    ensures opening { IfOk result (λ w. (held : List (OpenedCommitment (PlainCommitmentData F) F))
        → AreOpenedCommitments (AreHolding
        (scheme F.ring F.inv F.root F.GENERATOR F.TWO_ADICITY (record { log_blowup = log_blowup })))
        requests.now held
        → IsOpening E.ring E.embed (λ (d : CosetData F). 2 ^ d.log_size) (λ (x : E). ⊥)
        (Opens (scheme F.ring F.inv F.root F.GENERATOR F.TWO_ADICITY
        (record { log_blowup = log_blowup })) E.ring E.embed) requests.now (nested w) held) }
{
    if let Some(request) = first_unfit(requests) {
        return Err(PcsFailure::Refused(PlainProverError::Open { request }));
    }
    let values = opened_requests(alloc, log_blowup, requests)?;
    Ok(values)
}

// The place of the first request whose lists of points aren't one per matrix.
fn first_unfit<F: TwoAdicCore, E>(
    requests: &[OpeningRequest<'_, PlainProverData<F>, E>],
) -> Option<usize>
    ensures { MatchOption result (All (λ r. length r.points ≡ length r.prover_data) requests.now)
        (IsFirstWithout (λ r. length r.points ≡ length r.prover_data) requests.now) }
{
    for (index, request) in requests.iter().enumerate() {
        let prover_data = request.prover_data;
        let lists = request.points.len();
        let matrices = prover_data.evaluated.len();
        if lists != matrices {
            return Some(index);
        }
    }
    None
}

// The values that are asked for, request by request.
fn opened_requests<F: TwoAdicField, E: ExtensionField<F>>(
    alloc: Global,
    log_blowup: usize,
    requests: &[OpeningRequest<'_, PlainProverData<F>, E>],
) -> Mem<OpenedValues<E>>
    requires made { All (λ r. IsMade r.prover_data) requests.now }
    requires lists { All (λ r. length r.points ≡ length r.prover_data) requests.now }
    ensures { IfOk result (λ w. (held : List (OpenedCommitment (PlainCommitmentData F) F))
        → EachFrom requests.now held
        (λ r h. EachHasValues F.ring F.root log_blowup r.prover_data h.matrices)
        → nested w ≡ opened E.ring E.embed held requests.now) }
{
    let mut rounds = Vec::with_capacity(alloc, requests.len())?;
    for request in requests {
        rounds.push(opened_matrices(alloc, log_blowup, request.prover_data, &request.points)?)?;
    }
    Ok(rounds)
}

// The values of the polynomials in prover data, matrix by matrix.
fn opened_matrices<F: TwoAdicField, E: ExtensionField<F>>(
    alloc: Global,
    log_blowup: usize,
    prover_data: &PlainProverData<F>,
    points: &[Vec<E>],
) -> Mem<OpenedValuesForRound<E>>
    requires made { IsMade prover_data.now }
    requires lists { length points.now ≡ length prover_data.now }
    ensures { IfOk result (λ w. (cs : List (Committed F))
        → EachHasValues F.ring F.root log_blowup prover_data.now cs
        → map (λ m. map (λ v. v.items) m.items) w.items
        ≡ opened_each E.ring E.embed cs (map (λ v. v.items) points.now)) }
{
    let mut matrices = Vec::with_capacity(alloc, points.len())?;
    for (index, list) in points.iter().enumerate() {
        let (domain, matrix) = &prover_data.evaluated[index];
        matrices.push(opened_matrix(alloc, log_blowup, domain, matrix, list)?)?;
    }
    Ok(matrices)
}

// The values of a matrix's polynomials, point by point. They have 2^log_blowup times fewer coefficients than the matrix has
// rows, so they are read from the rows for the first of so many parts of its domain.
fn opened_matrix<F: TwoAdicField, E: ExtensionField<F>>(
    alloc: Global,
    log_blowup: usize,
    domain: &TwoAdicMultiplicativeCoset<F>,
    matrix: &RowMajorMatrix<F>,
    points: &[E],
) -> Mem<OpenedValuesForMatrix<E>>
    requires { height matrix.now ≡ 2 ^ domain.now.log_size }
    ensures { IfOk result (λ w. (c : Committed F)
        → HaveMatrixValues F.ring F.root (2 ^ (domain.now.log_size - log_blowup)) domain.now
        matrix.now c.polynomials
        → map (λ v. v.items) w.items ≡ map (values_of E.ring E.embed c) points.now) }
{
    let part = first_part(domain, log_blowup);
    let rows = rows_on(alloc, domain, matrix, &part)?;
    let mut values = Vec::with_capacity(alloc, points.len())?;
    for point in points {
        values.push(opened_at(alloc, &part, &rows, *point)?)?;
    }
    Ok(values)
}

// The first of 2^log_parts parts of a domain, or of as many as it has points.
fn first_part<F: TwoAdicField>(
    domain: &TwoAdicMultiplicativeCoset<F>,
    log_parts: usize,
) -> TwoAdicMultiplicativeCoset<F>
    ensures shift { result.shift ≡ domain.now.shift }
    ensures size { result.log_size ≡ domain.now.log_size - log_parts }
{
    domain.valid();
    let log_size = domain.log_size().saturating_sub(log_parts);
    match TwoAdicMultiplicativeCoset::new(domain.shift(), log_size) {
        Some(part) => part,
        None => unreachable!(),
    }
}

// The values of a matrix's polynomials at a point.
fn opened_at<F: TwoAdicField, E: ExtensionField<F>>(
    alloc: Global,
    domain: &TwoAdicMultiplicativeCoset<F>,
    matrix: &RowMajorMatrix<F>,
    point: E,
) -> Mem<Vec<E>>
    requires { height matrix.now ≡ 2 ^ domain.now.log_size }
    ensures { IfOk result (λ v. (c : Committed F)
        → HaveMatrixValues F.ring F.root (2 ^ domain.now.log_size) domain.now matrix.now
        c.polynomials → v.items ≡ values_of E.ring E.embed c point) }
{
    domain.valid();
    let values = interpolate_coset(alloc, matrix, domain.shift(), point)?;
    Ok(values)
}
