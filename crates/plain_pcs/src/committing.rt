//! Commitments to matrices and to extensions.
ghost use Rattle.std.specs.Prelude.{◌≡◌, ℕ, ◌^◌, ◌<◌, ◌≤◌, ◌↔◌, IsTrue, List, Some, IfOk, MatchOption, All, length, slice_get};
ghost use Rattle.p3_field.specs.Domain.{CosetData, coset_point, point, IsInterpolant};
ghost use Rattle.p3_matrix.specs.Matrix.{Rows, height, column};
ghost use Rattle.commit_core.specs.Space.{EachOf};
ghost use Rattle.commit_core.specs.Periodic.{EachFrom};
ghost use Rattle.commit_core.specs.Failure.{NoneOf, RefusedBy};
ghost use Rattle.commit_core.specs.Commitments.{IsCommitment, AreExtensions};
ghost use Rattle.plain_pcs.specs.Scheme.{scheme};
ghost use Rattle.plain_pcs.specs.Extension.{Extends, commitment_of};
ghost use Rattle.plain_pcs.specs.Holding.{IsMade, AreHolding};
ghost use Rattle.plain_pcs.specs.Cosets.{IsOnCoset};
ghost use Rattle.p3_field.specs.Checks.{IsFirstWithout};
ghost use Rattle.plain_pcs.specs.Refusals.{CommitFault, ExtensionsFault, HasSubgroupHeight, IfOutOfMemory};

use crate::commitment::{PlainCommitment, PlainProverData, copied_matrices};
use crate::error::PlainProverError;
use crate::extending::{extensions_from, first_not_committable};
use commit_core::PcsFailure;
use p3_dft::{TwoAdicSubgroupDft, interpolants_on_coset};
use p3_field::{FieldCore, Mem, TwoAdicCore, TwoAdicField, TwoAdicMultiplicativeCoset};
use p3_matrix::{RowMajorMatrix, is_power_of_two, log2_strict_usize};
use std::alloc::Global;

/// Commits to the columns of matrices on domains (not in Plonky3): the commitment is their extensions, of which the
/// prover keeps a copy. The matrices themselves aren't copied. `Refused` names the first matrix that can't be committed
/// to, and comes exactly where there is one.
pub(crate) fn commit<F: TwoAdicField, D: TwoAdicSubgroupDft<F>>(
    alloc: Global,
    dft: &D,
    log_blowup: usize,
    evaluations: Vec<(TwoAdicMultiplicativeCoset<F>, RowMajorMatrix<F>)>,
) -> Result<(PlainCommitment<F>, PlainProverData<F>), PcsFailure<PlainProverError>>
    requires { log_blowup ≤ F.TWO_ADICITY }
    ensures refusal { RefusedBy
        (CommitFault (scheme F.ring F.inv F.root F.GENERATOR F.TWO_ADICITY
        (record { log_blowup = log_blowup })) evaluations.items) result }
    ensures searched { IfOutOfMemory result
        (NoneOf (CommitFault (scheme F.ring F.inv F.root F.GENERATOR F.TWO_ADICITY
        (record { log_blowup = log_blowup })) evaluations.items)) }
    ensures committed { IfOk result
        (IsCommitment F.ring (λ (d : CosetData F). 2 ^ d.log_size)
        (λ (d : CosetData F). point F.ring F.root d)
        (λ es c. c ≡ commitment_of
        (scheme F.ring F.inv F.root F.GENERATOR F.TWO_ADICITY (record { log_blowup = log_blowup }))
        es)
        IsMade (AreHolding (scheme F.ring F.inv F.root F.GENERATOR F.TWO_ADICITY
        (record { log_blowup = log_blowup }))) evaluations.items) }
{
    if let Some(matrix) = first_not_committable(log_blowup, &evaluations) {
        return Err(PcsFailure::Refused(PlainProverError::Commit { matrix }));
    }
    let ldes = extensions_from(alloc, dft, log_blowup, evaluations)?;
    commit_extensions(alloc, log_blowup, ldes)
}

/// The extensions of matrices on domains (not in Plonky3), without a copy of any. `Refused` names the first matrix
/// that can't be committed to, and comes exactly where there is one.
pub(crate) fn extensions<F: TwoAdicField, D: TwoAdicSubgroupDft<F>>(
    alloc: Global,
    dft: &D,
    log_blowup: usize,
    evaluations: Vec<(TwoAdicMultiplicativeCoset<F>, RowMajorMatrix<F>)>,
) -> Result<Vec<RowMajorMatrix<F>>, PcsFailure<PlainProverError>>
    requires { log_blowup ≤ F.TWO_ADICITY }
    ensures refusal { RefusedBy
        (CommitFault (scheme F.ring F.inv F.root F.GENERATOR F.TWO_ADICITY
        (record { log_blowup = log_blowup })) evaluations.items) result }
    ensures searched { IfOutOfMemory result
        (NoneOf (CommitFault (scheme F.ring F.inv F.root F.GENERATOR F.TWO_ADICITY
        (record { log_blowup = log_blowup })) evaluations.items)) }
    ensures extensions { IfOk result
        (λ v. AreExtensions (Extends
        (scheme F.ring F.inv F.root F.GENERATOR F.TWO_ADICITY (record { log_blowup = log_blowup })))
        evaluations.items v.items) }
{
    if let Some(matrix) = first_not_committable(log_blowup, &evaluations) {
        return Err(PcsFailure::Refused(PlainProverError::Commit { matrix }));
    }
    let extended = extensions_from(alloc, dft, log_blowup, evaluations)?;
    Ok(extended)
}

/// Whether the field has a subgroup with as many elements as the matrix has rows, which is what
/// [`committed`](crate::PlainPcs::committed) asks of a committed matrix.
pub fn has_subgroup_height<F: TwoAdicField>(matrix: &RowMajorMatrix<F>) -> bool
    ensures { IsTrue result ↔ HasSubgroupHeight F.TWO_ADICITY matrix.now }
{
    let height = matrix.height();
    is_power_of_two(height) && log2_strict_usize(height) <= F::TWO_ADICITY
}

// The place of the first matrix whose height isn't the size of a subgroup, or None.
fn first_other_height<F: TwoAdicField>(ldes: &[RowMajorMatrix<F>]) -> Option<usize>
    ensures { MatchOption result (All (HasSubgroupHeight F.TWO_ADICITY) ldes.now)
        (IsFirstWithout (HasSubgroupHeight F.TWO_ADICITY) ldes.now) }
{
    for (matrix, lde) in ldes.iter().enumerate() {
        if !has_subgroup_height(lde) {
            return Some(matrix);
        }
    }
    None
}

// The coset whose shift is the field's GENERATOR and which has a point for each row.
fn coset_of_height<F: TwoAdicField>(matrix: &RowMajorMatrix<F>) -> TwoAdicMultiplicativeCoset<F>
    requires { HasSubgroupHeight F.TWO_ADICITY matrix.now }
    ensures shift { result.shift ≡ F.GENERATOR }
    ensures size { height matrix.now ≡ 2 ^ result.log_size }
{
    TwoAdicMultiplicativeCoset::new(F::GENERATOR, log2_strict_usize(matrix.height())).unwrap()
}

// Each matrix with the coset of its height.
fn with_cosets<F: TwoAdicField>(
    alloc: Global,
    matrices: Vec<RowMajorMatrix<F>>,
) -> Mem<Vec<(TwoAdicMultiplicativeCoset<F>, RowMajorMatrix<F>)>>
    requires { All (HasSubgroupHeight F.TWO_ADICITY) matrices.items }
    ensures { IfOk result (λ v.
        EachFrom matrices.items v.items (λ m e. IsOnCoset F.GENERATOR m e)) }
{
    let mut evaluated = Vec::with_capacity(alloc, matrices.len())?;
    for matrix in matrices {
        let domain = coset_of_height(&matrix);
        evaluated.push((domain, matrix))?;
    }
    Ok(evaluated)
}

/// Commits to the columns of which these are extensions that `extensions` gave (not in Plonky3): the commitment is the
/// extensions, and the prover keeps them, each with its coset. They are copied once. `Refused` names the first matrix
/// whose height isn't the size of a subgroup, and comes exactly where there is one.
pub(crate) fn commit_extensions<F: TwoAdicField>(
    alloc: Global,
    log_blowup: usize,
    ldes: Vec<RowMajorMatrix<F>>,
) -> Result<(PlainCommitment<F>, PlainProverData<F>), PcsFailure<PlainProverError>>
    requires { log_blowup ≤ F.TWO_ADICITY }
    ensures refusal { RefusedBy
        (ExtensionsFault (scheme F.ring F.inv F.root F.GENERATOR F.TWO_ADICITY
        (record { log_blowup = log_blowup })) ldes.items) result }
    ensures searched { IfOutOfMemory result
        (NoneOf (ExtensionsFault
        (scheme F.ring F.inv F.root F.GENERATOR F.TWO_ADICITY (record { log_blowup = log_blowup }))
        ldes.items)) }
    ensures commitment { IfOk result (λ w. w.0 ≡ record { matrices = ldes.items }) }
    ensures made { IfOk result (λ w. IsMade w.1) }
    ensures count { IfOk result (λ w. length w.1 ≡ length ldes.items) }
    ensures committed { IfOk result (λ w. (chunks : List (CosetData F × Rows F))
        → AreExtensions (Extends
        (scheme F.ring F.inv F.root F.GENERATOR F.TWO_ADICITY (record { log_blowup = log_blowup })))
        chunks ldes.items
        → IsCommitment F.ring (λ (d : CosetData F). 2 ^ d.log_size)
        (λ (d : CosetData F). point F.ring F.root d)
        (λ es c. c ≡ commitment_of
        (scheme F.ring F.inv F.root F.GENERATOR F.TWO_ADICITY (record { log_blowup = log_blowup }))
        es)
        IsMade (AreHolding (scheme F.ring F.inv F.root F.GENERATOR F.TWO_ADICITY
        (record { log_blowup = log_blowup }))) chunks w) }
{
    if let Some(matrix) = first_other_height(&ldes) {
        return Err(PcsFailure::Refused(PlainProverError::Commit { matrix }));
    }
    let matrices = copied_matrices(alloc, &ldes)?;
    let evaluated = with_cosets(alloc, ldes)?;
    let commitment = PlainCommitment::new(alloc, matrices)?;
    Ok((commitment, PlainProverData { evaluated }))
}

/// The interpolants of a matrix's columns on the coset of its height, all found at once.
pub(crate) fn column_polynomials<F: TwoAdicField>(
    alloc: Global,
    matrix: &RowMajorMatrix<F>,
) -> Mem<Vec<Vec<F>>>
    requires { HasSubgroupHeight F.TWO_ADICITY matrix.now }
    ensures { IfOk result (λ v. (k : ℕ) → height matrix.now ≡ 2 ^ k
        → EachOf matrix.now.width v.items
        (λ j f. IsInterpolant F.ring (coset_point F.ring F.GENERATOR (F.root k))
        (column F.ring.zero matrix.now j) f.items)) }
{
    let log_height = log2_strict_usize(matrix.height());
    let coefficients = interpolants_on_coset(alloc, matrix, F::GENERATOR, log_height)?;
    let mut polynomials = Vec::with_capacity(alloc, matrix.width())?;
    for j in 0..matrix.width() {
        let polynomial = coefficients.column(alloc, j)?;
        polynomials.push(polynomial)?;
    }
    Ok(polynomials)
}

/// The polynomials of the columns of a committed matrix whose height is the size of a subgroup (not in Plonky3): for each
/// column its coefficients, lowest first, as many as there are rows. The value at point i of the coset with shift
/// GENERATOR is the column's value in row i.
pub(crate) fn committed<F: TwoAdicField>(
    alloc: Global,
    commitment: &PlainCommitment<F>,
    matrix: usize,
) -> Mem<Vec<Vec<F>>>
    requires exists { matrix < length commitment.now.matrices }
    requires height { (m : Rows F) → slice_get commitment.now.matrices matrix ≡ Some m
        → HasSubgroupHeight F.TWO_ADICITY m }
    ensures { IfOk result (λ v. (m : Rows F) (k : ℕ)
        → slice_get commitment.now.matrices matrix ≡ Some m → height m ≡ 2 ^ k
        → EachOf m.width v.items
        (λ j f. IsInterpolant F.ring (coset_point F.ring F.GENERATOR (F.root k))
        (column F.ring.zero m j) f.items)) }
{
    let matrices: &[RowMajorMatrix<F>] = commitment.matrices();
    column_polynomials(alloc, &matrices[matrix])
}
