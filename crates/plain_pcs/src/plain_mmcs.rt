//! Matrices that are their own commitment.
ghost use Rattle.std.specs.Prelude.{◌≡◌, ◌≢◌, ℕ, ◌<◌, ◌↔◌, List, length, map, All, Err, IfOk, IsTrue, MatchOption, ⊤};
ghost use Rattle.std.specs.Int.{IsPowerOfTwo};
ghost use Rattle.p3_matrix.specs.Matrix.{Rows, height};
ghost use Rattle.commit_core.specs.Periodic.{IsGreatest, EachFrom};
ghost use Rattle.commit_rows.specs.Batches.{lists, IsBatch, IsRowOf, HaveWidths};
ghost use Rattle.commit_core.specs.Failure.{VerifiedBy};
ghost use Rattle.plain_pcs.specs.Laws.Faults.{opened_faultless, all_opened_faultless, some_opening_fault, some_fault_of_all, one_opening_fault, one_fault_of_all};
ghost use Rattle.plain_pcs.specs.PlainMmcs.{AreTheRows, HasOpeningShape, HaveOpeningShapes, IsRowOpening, IsOpeningFault, AreRowOpenings, IsFaultOfOpenings};

use crate::rows::{are_dimensions, are_the_rows, have_widths, is_row, opened_rows};
use commit_core::PcsFailure;
use commit_rows::{BatchOpening, BatchOpeningRef, Mmcs};
use p3_field::Mem;
use p3_matrix::{Dimensions, RowMajorMatrix};
use std::alloc::Global;
use std::marker::Model;
use thiserror::Error;

/// A scheme whose commitment is the matrices themselves (not in Plonky3). Committing copies each matrix once, since the
/// commitment and the prover data are two values. Values are compared by their `==`.
#[derive(Drop)]
pub struct PlainMmcs;

/// What the prover of a `PlainMmcs` keeps: the matrices. Contracts see it as their list.
#[derive(Drop)]
pub struct PlainMmcsData<T> {
    matrices: Vec<RowMajorMatrix<T>>,
}

impl<T> Model for PlainMmcsData<T> {
    ghost Value = { List (Rows T) };

    ghost view = { λ s. s.matrices.items };

    ghost invariant = { λ s. IsBatch s.matrices.items };
}

/// The proof of an opening of a `PlainMmcs`, of one row or of several (not in Plonky3): the verifier has the matrices, and
/// needs none.
#[derive(Drop)]
pub struct PlainMmcsProof;

/// Why a `PlainMmcs` refuses an opening, the first that comes (not in Plonky3).
#[derive(Debug, Drop, Error)]
pub enum PlainMmcsError {
    /// The dimensions aren't those of the committed matrices, a committed height is no power of two, or what is opened
    /// hasn't this shape: as many lists of rows as places, in each a row for each matrix, as long as it is wide.
    #[error("what is opened has another shape than the committed matrices")]
    Dimensions,
    /// The place isn't a row of the highest matrix.
    #[error("the index is past the last row of the highest matrix")]
    Index,
    /// A row isn't the committed one.
    #[error("a row is not the committed one")]
    Value,
}

impl<T: Copy + Eq> Mmcs<T> for PlainMmcs {
    type ProverData = PlainMmcsData<T>;

    type Commitment = Vec<RowMajorMatrix<T>>;

    type Proof = PlainMmcsProof;

    type MultiProof = PlainMmcsProof;

    type Error = PlainMmcsError;

    ghost takes = { λ _. ⊤ };

    ghost matrices = { λ d. d };

    ghost belongs = { λ s d c. c.items ≡ d };

    ghost opens = { λ s c ds i rows p. IsRowOpening T.eq c.items ds i rows };

    ghost fault = { λ s c ds i rows p e. IsOpeningFault T.eq c.items ds i rows e };

    ghost multi_opens = { λ s c ds is rows p. AreRowOpenings T.eq c.items ds is rows };

    ghost multi_fault = { λ s c ds is rows p e. IsFaultOfOpenings T.eq c.items ds is rows e };

    /// Copies each matrix once, for the commitment.
    fn commit(
        &self,
        alloc: Global,
        inputs: Vec<RowMajorMatrix<T>>,
    ) -> Mem<(Vec<RowMajorMatrix<T>>, PlainMmcsData<T>)>
        requires batch { IsBatch inputs.items }
        requires widths { All (λ m. ⊤) inputs.items }
        ensures matrices { IfOk result (λ w. w.1 ≡ inputs.items) }
        ensures belongs { IfOk result (λ w. w.0.items ≡ w.1) }
    {
        let mut commitment = Vec::with_capacity(alloc, inputs.len())?;
        for m in &inputs {
            commitment.push(m.try_clone(alloc)?)?;
        }
        Ok((commitment, PlainMmcsData { matrices: inputs }))
    }

    /// A copy of a row of each matrix.
    fn open_batch(
        &self,
        alloc: Global,
        index: usize,
        prover_data: &PlainMmcsData<T>,
    ) -> Mem<BatchOpening<T, Self>> {
        let opened_values = opened_rows(alloc, &prover_data.matrices, index)?;
        Ok(BatchOpening {
            opened_values,
            opening_proof: PlainMmcsProof,
        })
    }

    /// The committed matrices, in order.
    fn get_matrices<'a>(&self, prover_data: &'a PlainMmcsData<T>) -> &'a [RowMajorMatrix<T>] {
        &prover_data.matrices
    }

    /// Compares the rows with the committed ones, one for each matrix, as long as it is wide. It allocates nothing, so memory
    /// never runs out. Where a committed height is no power of two, it is `Dimensions` for all rows.
    fn verify_batch(
        &self,
        _alloc: Global,
        commit: &Vec<RowMajorMatrix<T>>,
        dimensions: &[Dimensions],
        index: usize,
        opening: BatchOpeningRef<'_, T, Self>,
    ) -> Result<(), PcsFailure<PlainMmcsError>>
        requires { All (λ d. ⊤) dimensions.now }
        ensures verdict { VerifiedBy
            (IsRowOpening T.eq commit.now.items dimensions.now index
            (lists opening.entry.opened_values.now))
            (IsOpeningFault T.eq commit.now.items dimensions.now index
            (lists opening.entry.opened_values.now)) result }
        ensures decided { result ≢ Err PcsFailure.OutOfMemory }
    {
        let rows = opening.opened_values;
        if !has_shape(commit, dimensions, rows) {
            return Err(PcsFailure::Refused(PlainMmcsError::Dimensions));
        }
        if !is_row(commit, index) {
            return Err(PcsFailure::Refused(PlainMmcsError::Index));
        }
        if !are_the_rows(commit, index, rows) {
            return Err(PcsFailure::Refused(PlainMmcsError::Value));
        }
        Ok(())
    }

    /// A copy of a row of each matrix, for each place.
    fn open_multi_batch(
        &self,
        alloc: Global,
        indices: &[usize],
        prover_data: &PlainMmcsData<T>,
    ) -> Mem<(Vec<Vec<Vec<T>>>, PlainMmcsProof)> {
        let mut openings = Vec::with_capacity(alloc, indices.len())?;
        for &index in indices {
            openings.push(opened_rows(alloc, &prover_data.matrices, index)?)?;
        }
        Ok((openings, PlainMmcsProof))
    }

    /// The same for each place in its turn: the shape of all openings comes first, then the places, then the values. It
    /// allocates nothing, so memory never runs out.
    fn verify_multi_batch(
        &self,
        _alloc: Global,
        commit: &Vec<RowMajorMatrix<T>>,
        dimensions: &[Dimensions],
        indices: &[usize],
        opened_values: &[Vec<Vec<T>>],
        _proof: &PlainMmcsProof,
    ) -> Result<(), PcsFailure<PlainMmcsError>>
        requires { All (λ d. ⊤) dimensions.now }
        ensures verdict { VerifiedBy
            (AreRowOpenings T.eq commit.now.items dimensions.now indices.now
            (map (λ rows. lists rows.items) opened_values.now))
            (IsFaultOfOpenings T.eq commit.now.items dimensions.now indices.now
            (map (λ rows. lists rows.items) opened_values.now)) result }
        ensures decided { result ≢ Err PcsFailure.OutOfMemory }
    {
        if !have_shape(commit, dimensions, indices, opened_values) {
            return Err(PcsFailure::Refused(PlainMmcsError::Dimensions));
        }
        if !are_places(commit, indices) {
            return Err(PcsFailure::Refused(PlainMmcsError::Index));
        }
        if !are_all_the_rows(commit, indices, opened_values) {
            return Err(PcsFailure::Refused(PlainMmcsError::Value));
        }
        Ok(())
    }

    ghost opens_faultless = { λ s c ds i rows p h. opened_faultless T.eq c.items ds i rows h };

    ghost multi_opens_faultless = { λ s c ds is rows p h.
        all_opened_faultless T.eq c.items ds is rows h };

    ghost some_fault = { λ s c ds i rows p n f. some_opening_fault T.eq c.items ds i rows n f };

    ghost multi_some_fault = { λ s c ds is rows p n f.
        some_fault_of_all T.eq c.items ds is rows n f };

    ghost one_fault = { λ s c ds i rows p e g f h.
        one_opening_fault T.eq c.items ds i rows e g f h };

    ghost multi_one_fault = { λ s c ds is rows p e g f h.
        one_fault_of_all T.eq c.items ds is rows e g f h };

    ghost opened_widths = { λ s c ds i rows p h. h.shape.widths };

    ghost multi_opened_widths = { λ s c ds is rows p h. h.shape.widths };
}

// Whether an opening has the matrices' shape.
fn has_shape<T>(matrices: &[RowMajorMatrix<T>], dimensions: &[Dimensions], rows: &[Vec<T>]) -> bool
    ensures { IsTrue result ↔ HasOpeningShape matrices.now dimensions.now (lists rows.now) }
{
    are_dimensions(matrices, dimensions) && have_widths(dimensions, rows)
}

// Whether each opening has a row for each of the dimensions, as long as they say.
fn have_widths_each<T>(dimensions: &[Dimensions], openings: &[Vec<Vec<T>>]) -> bool
    ensures { IsTrue result ↔ All (HaveWidths dimensions.now)
        (map (λ rows. lists rows.items) openings.now) }
{
    for rows in openings {
        if !have_widths(dimensions, rows) {
            return false;
        }
    }
    true
}

// Whether several openings have the matrices' shape.
fn have_shape<T>(
    matrices: &[RowMajorMatrix<T>],
    dimensions: &[Dimensions],
    indices: &[usize],
    openings: &[Vec<Vec<T>>],
) -> bool
    ensures { IsTrue result ↔ HaveOpeningShapes matrices.now dimensions.now indices.now
        (map (λ rows. lists rows.items) openings.now) }
{
    are_dimensions(matrices, dimensions)
        && openings.len() == indices.len()
        && have_widths_each(dimensions, openings)
}

// Whether each place is a row of the highest matrix.
fn are_places<T>(matrices: &[RowMajorMatrix<T>], indices: &[usize]) -> bool
    ensures { IsTrue result ↔ All (IsRowOf matrices.now) indices.now }
{
    for &index in indices {
        if !is_row(matrices, index) {
            return false;
        }
    }
    true
}

// Whether the rows for each place are the committed ones.
fn are_all_the_rows<T: Copy + Eq>(
    matrices: &[RowMajorMatrix<T>],
    indices: &[usize],
    openings: &[Vec<Vec<T>>],
) -> bool
    requires powers { All (λ m. IsPowerOfTwo (height m)) matrices.now }
    requires places { All (IsRowOf matrices.now) indices.now }
    requires count { length openings.now ≡ length indices.now }
    requires rows { All (λ rows. length rows.items ≡ length matrices.now) openings.now }
    ensures { IsTrue result ↔ EachFrom indices.now (map (λ rows. lists rows.items) openings.now)
        (AreTheRows T.eq matrices.now) }
{
    for (i, rows) in openings.iter().enumerate() {
        if !are_the_rows(matrices, indices[i], rows) {
            return false;
        }
    }
    true
}
