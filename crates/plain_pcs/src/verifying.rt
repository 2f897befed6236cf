//! The search for the first check of claims that fails.
ghost use Rattle.std.specs.Prelude.{◌≡◌, ℕ, ◌+◌, ◌*◌, ◌^◌, ◌<◌, ◌≤◌, ◌↔◌, IsTrue, IfOk, List, [], All, length, map, get_or, zip};
ghost use Rattle.p3_field.specs.Poly.{eval_poly, DegreeBelow};
ghost use Rattle.p3_field.specs.Checks.{FirstFailing, FirstRefusal, of_items};
ghost use Rattle.p3_matrix.specs.Matrix.{Rows, height};
ghost use Rattle.plain_pcs.specs.Scheme.{Scheme, scheme};
ghost use Rattle.plain_pcs.specs.Checks.{HasDimensions, point_checks, matrix_checks, round_checks, opening_claim_checks};
ghost use Rattle.plain_pcs.specs.Faults.{AreColumnPolynomials};

use crate::commitment::PlainCommitment;
use crate::committing::column_polynomials;
use crate::error::PlainError;
use commit_core::{CommitmentOpening, MatrixOpening, PointOpening};
use p3_dft::polynomial_value;
use p3_field::{
    ExtensionField, Field, FieldCore, Mem, TwoAdicCore, TwoAdicField, TwoAdicMultiplicativeCoset,
};
use p3_matrix::RowMajorMatrix;
use std::alloc::Global;

/// Whether all coefficients from this place on are zero.
fn has_degree_below<F: Field>(polynomial: &[F], bound: usize) -> bool
    ensures { IsTrue result ↔ DegreeBelow F.ring bound polynomial.now }
{
    let mut i = bound;
    while i < polynomial.len() {
        if !polynomial[i].is_zero() {
            return false;
        }
        i += 1;
    }
    true
}

/// The first polynomial of too high a degree, or None.
fn first_high_degree<F: Field>(polynomials: &[Vec<F>], bound: usize) -> Option<usize>
    ensures { FirstFailing (length polynomials.now)
        (λ j. DegreeBelow F.ring bound (get_or (map (λ f. f.items) polynomials.now) j [])) result }
{
    for (j, polynomial) in polynomials.iter().enumerate() {
        if !has_degree_below(polynomial, bound) {
            return Some(j);
        }
    }
    None
}

/// The first polynomial whose value at the point isn't the claimed one, or None.
fn first_wrong_value<F: TwoAdicField, E: ExtensionField<F>>(
    polynomials: &[Vec<F>],
    point: E,
    claimed: &[E],
) -> Option<usize>
    requires { length claimed.now ≡ length polynomials.now }
    ensures { FirstFailing (length polynomials.now)
        (λ j. eval_poly E.ring (map E.embed (get_or (map (λ f. f.items) polynomials.now) j []))
        point ≡ get_or claimed.now j E.ring.zero) result }
{
    for (j, polynomial) in polynomials.iter().enumerate() {
        if polynomial_value(polynomial, point) != claimed[j] {
            return Some(j);
        }
    }
    None
}

/// Whether each point's claimed values are as many as this.
fn have_width<E: Field>(width: usize, points: &[PointOpening<E>]) -> bool
    ensures { IsTrue result ↔ All (λ p. length p.values ≡ width) points.now }
{
    for point in points {
        if point.values.len() != width {
            return false;
        }
    }
    true
}

/// Whether a matrix has the dimensions that its claim asks for.
fn has_dimensions<F: TwoAdicField, E: ExtensionField<F>>(
    log_blowup: usize,
    matrix: &RowMajorMatrix<F>,
    claim: &MatrixOpening<E, TwoAdicMultiplicativeCoset<F>>,
) -> bool
    requires { log_blowup ≤ F.TWO_ADICITY }
    ensures { IsTrue result ↔ HasDimensions
        (scheme F.ring F.inv F.root F.GENERATOR F.TWO_ADICITY (record { log_blowup = log_blowup }))
        E.ring E.embed matrix.now claim.now }
{
    claim.domain.valid();
    let log_height = claim.domain.log_size() + log_blowup;
    if log_height > F::TWO_ADICITY {
        return false;
    }
    if matrix.height() != 1 << log_height {
        return false;
    }
    have_width(matrix.width(), &claim.points)
}

/// The first wrong value of a matrix's columns at the points of its claim, or None.
fn points_fault<F: TwoAdicField, E: ExtensionField<F>>(
    round: usize,
    matrix: usize,
    polynomials: &[Vec<F>],
    points: &[PointOpening<E>],
) -> Option<PlainError>
    requires { All (λ p. length p.values ≡ length polynomials.now) points.now }
    ensures { (s : Scheme F) (m : Rows F) (k : ℕ)
        → AreColumnPolynomials s m k (map (λ f. f.items) polynomials.now)
        → FirstRefusal (of_items (point_checks s E.ring E.embed round matrix m k) points.now)
        result }
{
    for (point, opening) in points.iter().enumerate() {
        if let Some(column) = first_wrong_value(polynomials, opening.point, &opening.values) {
            return Some(PlainError::Value {
                round,
                matrix,
                point,
                column,
            });
        }
    }
    None
}

/// The first fault of the claim on a matrix, or None.
fn matrix_fault<F: TwoAdicField, E: ExtensionField<F>>(
    alloc: Global,
    log_blowup: usize,
    round: usize,
    number: usize,
    matrix: &RowMajorMatrix<F>,
    claim: &MatrixOpening<E, TwoAdicMultiplicativeCoset<F>>,
) -> Mem<Option<PlainError>>
    requires { log_blowup ≤ F.TWO_ADICITY }
    ensures { IfOk result (FirstRefusal
        (matrix_checks (scheme F.ring F.inv F.root F.GENERATOR F.TWO_ADICITY
        (record { log_blowup = log_blowup })) E.ring E.embed round number
        (matrix.now, claim.now))) }
{
    if !has_dimensions(log_blowup, matrix, claim) {
        return Ok(Some(PlainError::Dimensions {
            round,
            matrix: number,
        }));
    }
    let polynomials = column_polynomials(alloc, matrix)?;
    if let Some(column) = first_high_degree(&polynomials, claim.domain.size()) {
        return Ok(Some(PlainError::Degree {
            round,
            matrix: number,
            column,
        }));
    }
    Ok(points_fault(round, number, &polynomials, &claim.points))
}

/// The first fault of the claims on a commitment's matrices, one for each, or None.
fn matrices_fault<F: TwoAdicField, E: ExtensionField<F>>(
    alloc: Global,
    log_blowup: usize,
    round: usize,
    matrices: &[RowMajorMatrix<F>],
    claims: &[MatrixOpening<E, TwoAdicMultiplicativeCoset<F>>],
) -> Mem<Option<PlainError>>
    requires blowup { log_blowup ≤ F.TWO_ADICITY }
    requires count { length matrices.now ≡ length claims.now }
    ensures { IfOk result (FirstRefusal
        (of_items (matrix_checks
        (scheme F.ring F.inv F.root F.GENERATOR F.TWO_ADICITY (record { log_blowup = log_blowup }))
        E.ring E.embed round) (zip matrices.now claims.now))) }
{
    for (number, claim) in claims.iter().enumerate() {
        let matrix = &matrices[number];
        if let Some(error) = matrix_fault(alloc, log_blowup, round, number, matrix, claim)? {
            return Ok(Some(error));
        }
    }
    Ok(None)
}

/// The first fault of the claims on a commitment, or None.
fn round_fault<F: TwoAdicField, E: ExtensionField<F>>(
    alloc: Global,
    log_blowup: usize,
    round: usize,
    commitment: &PlainCommitment<F>,
    claims: &[MatrixOpening<E, TwoAdicMultiplicativeCoset<F>>],
) -> Mem<Option<PlainError>>
    requires { log_blowup ≤ F.TWO_ADICITY }
    ensures { IfOk result (FirstRefusal
        (round_checks (scheme F.ring F.inv F.root F.GENERATOR F.TWO_ADICITY
        (record { log_blowup = log_blowup })) E.ring E.embed round
        (record { commitment = commitment.now; matrices = claims.now }))) }
{
    let matrices: &[RowMajorMatrix<F>] = commitment.matrices();
    if matrices.len() != claims.len() {
        return Ok(Some(PlainError::RoundShape { round }));
    }
    matrices_fault(alloc, log_blowup, round, matrices, claims)
}

/// The first check of the claims that fails, or None (not in Plonky3): the claims on a commitment are one per matrix;
/// then, matrix by matrix, its dimensions, the degrees of its columns' polynomials, and their values point by point.
pub(crate) fn first_fault<F: TwoAdicField, E: ExtensionField<F>>(
    alloc: Global,
    log_blowup: usize,
    claims: &[CommitmentOpening<E, PlainCommitment<F>, TwoAdicMultiplicativeCoset<F>>],
) -> Mem<Option<PlainError>>
    requires { log_blowup ≤ F.TWO_ADICITY }
    ensures { IfOk result (FirstRefusal
        (opening_claim_checks (scheme F.ring F.inv F.root F.GENERATOR F.TWO_ADICITY
        (record { log_blowup = log_blowup })) E.ring E.embed claims.now)) }
{
    for (round, claim) in claims.iter().enumerate() {
        let matrices = &claim.matrices;
        if let Some(error) = round_fault(alloc, log_blowup, round, &claim.commitment, matrices)? {
            return Ok(Some(error));
        }
    }
    Ok(None)
}
