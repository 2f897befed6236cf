//! Commitments to matrices over an extension field, by a scheme over its base.
ghost use Rattle.std.specs.Prelude.{◌≡◌, ℕ, ◌*◌, ◌%◌, ◌^◌, ◌<◌, List, length, map, All, IfOk};
ghost use Rattle.std.specs.List.{flat_map};
ghost use Rattle.p3_matrix.specs.Matrix.{Rows, height};
ghost use Rattle.p3_matrix.specs.declared.dense.Dimensions.{Dimensions};
ghost use Rattle.commit_core.specs.Failure.{VerifiedBy};
ghost use Rattle.commit_rows.specs.Batches.{lists, IsBatch, flat_rows, widened, FlatData};
ghost use Rattle.commit_rows.specs.Laws.FlatBatches.{flat_widths, flat_widths_each};

use crate::mmcs::{BatchOpening, BatchOpeningRef, Mmcs};
use commit_core::PcsFailure;
use p3_field::{BasedVectorSpace, ExtensionField, Field, FieldCore, Mem};
use p3_matrix::{Dimensions, RowMajorMatrix, flatten_matrix};
use std::alloc::Global;
use std::marker::{Model, PhantomData};

// The matrices over the base.
fn flattened_matrices<F: Field, EF: ExtensionField<F>>(
    alloc: Global,
    matrices: &[RowMajorMatrix<EF>],
) -> Mem<Vec<RowMajorMatrix<F>>>
    requires { All (λ m. m.width * EF.DIMENSION < 2 ^ 64) matrices.now }
    ensures { IfOk result (λ v.
        v.items ≡ map (flat_rows EF.coefficients EF.DIMENSION) matrices.now) }
{
    let mut flat = Vec::with_capacity(alloc, matrices.len())?;
    for m in matrices {
        flat.push(flatten_matrix(alloc, m)?)?;
    }
    Ok(flat)
}

// Rows over the base.
fn flattened_rows<F: Field, EF: ExtensionField<F>>(
    alloc: Global,
    rows: &[Vec<EF>],
) -> Mem<Vec<Vec<F>>>
    ensures { IfOk result (λ v. lists v.items ≡ map (flat_map EF.coefficients) (lists rows.now)) }
{
    let mut flat = Vec::with_capacity(alloc, rows.len())?;
    for row in rows {
        flat.push(EF::flatten_to_base(alloc, row)?)?;
    }
    Ok(flat)
}

// The rows of which these are the rows over the base.
fn restored_rows<F: Field, EF: ExtensionField<F>>(
    alloc: Global,
    rows: &[Vec<F>],
) -> Mem<Vec<Vec<EF>>>
    requires { All (λ row. length row.items % EF.DIMENSION ≡ 0) rows.now }
    ensures { IfOk result (λ v. map (flat_map EF.coefficients) (lists v.items) ≡ lists rows.now) }
{
    let mut restored = Vec::with_capacity(alloc, rows.len())?;
    for row in rows {
        restored.push(EF::reconstitute_from_base(alloc, row)?)?;
    }
    Ok(restored)
}

// The dimensions over the base.
fn widened_dimensions<F: Field, EF: ExtensionField<F>>(
    alloc: Global,
    dimensions: &[Dimensions],
) -> Mem<Vec<Dimensions>>
    requires { All (λ d. d.width * EF.DIMENSION < 2 ^ 64) dimensions.now }
    ensures { IfOk result (λ v. v.items ≡ map (widened EF.DIMENSION) dimensions.now) }
{
    let mut wide = Vec::with_capacity(alloc, dimensions.len())?;
    for d in dimensions {
        wide.push(Dimensions {
            width: d.width * EF::DIMENSION,
            height: d.height,
        })?;
    }
    Ok(wide)
}

// The rows over the base for several places.
fn flattened_openings<F: Field, EF: ExtensionField<F>>(
    alloc: Global,
    openings: &[Vec<Vec<EF>>],
) -> Mem<Vec<Vec<Vec<F>>>>
    ensures { IfOk result (λ v.
        map (λ rows. lists rows.items) v.items
        ≡ map (map (flat_map EF.coefficients)) (map (λ rows. lists rows.items) openings.now)) }
{
    let mut flat = Vec::with_capacity(alloc, openings.len())?;
    for rows in openings {
        flat.push(flattened_rows(alloc, rows)?)?;
    }
    Ok(flat)
}

// The rows of which these are the rows over the base, for several places.
fn restored_openings<F: Field, EF: ExtensionField<F>>(
    alloc: Global,
    openings: &[Vec<Vec<F>>],
) -> Mem<Vec<Vec<Vec<EF>>>>
    requires { All (λ rows. All (λ row. length row.items % EF.DIMENSION ≡ 0) rows.items)
        openings.now }
    ensures { IfOk result (λ v.
        map (map (flat_map EF.coefficients)) (map (λ rows. lists rows.items) v.items)
        ≡ map (λ rows. lists rows.items) openings.now) }
{
    let mut restored = Vec::with_capacity(alloc, openings.len())?;
    for rows in openings {
        restored.push(restored_rows(alloc, rows)?)?;
    }
    Ok(restored)
}

/// A scheme over an extension field that commits by an inner scheme over its base: to the matrices with each value
/// replaced by its coefficients, as many times wider as the extension's dimension (`ExtensionMmcs` of `p3-commit`).
/// Contracts see it as the inner scheme.
#[derive(Drop)]
pub struct ExtensionMmcs<F, EF, InnerMmcs> {
    inner: InnerMmcs,
    fields: PhantomData<(F, EF)>,
}

impl<F, EF, InnerMmcs> Model for ExtensionMmcs<F, EF, InnerMmcs> {
    ghost Value = { InnerMmcs };

    ghost view = { λ s. s.inner };
}

impl<F, EF, InnerMmcs> ExtensionMmcs<F, EF, InnerMmcs> {
    /// The scheme that commits by this one.
    pub fn new(inner: InnerMmcs) -> Self
        ensures { result ≡ inner }
    {
        ExtensionMmcs {
            inner,
            fields: PhantomData,
        }
    }
}

/// What the prover of an `ExtensionMmcs` keeps: the matrices, and what the inner scheme keeps of them over the base.
#[derive(Drop)]
pub struct ExtensionMmcsData<F: Field, EF: ExtensionField<F>, InnerMmcs: Mmcs<F>> {
    inner: InnerMmcs::ProverData,
    matrices: Vec<RowMajorMatrix<EF>>,
    field: PhantomData<F>,
}

impl<F: Field, EF: ExtensionField<F>, InnerMmcs: Mmcs<F>> Model
    for ExtensionMmcsData<F, EF, InnerMmcs> {
    ghost Value = { FlatData InnerMmcs.ProverData EF };

    ghost view = { λ s. record { inner = s.inner; matrices = s.matrices.items } };

    ghost invariant = { λ s.
        InnerMmcs.matrices s.inner
        ≡ map (flat_rows EF.coefficients EF.DIMENSION) s.matrices.items };
}

impl<F: Field, EF: ExtensionField<F>, InnerMmcs: Mmcs<F>> Mmcs<EF>
    for ExtensionMmcs<F, EF, InnerMmcs> {
    type ProverData = ExtensionMmcsData<F, EF, InnerMmcs>;

    type Commitment = InnerMmcs::Commitment;

    type Proof = InnerMmcs::Proof;

    type MultiProof = InnerMmcs::MultiProof;

    type Error = InnerMmcs::Error;

    ghost takes = { λ w. (w * EF.DIMENSION < 2 ^ 64) × InnerMmcs.takes (w * EF.DIMENSION) };

    ghost matrices = { λ d. d.matrices };

    ghost belongs = { λ s d c. InnerMmcs.belongs s d.inner c };

    ghost opens = { λ s c ds i rows p.
        InnerMmcs.opens s c (map (widened EF.DIMENSION) ds) i (map (flat_map EF.coefficients) rows)
        p };

    ghost fault = { λ s c ds i rows p e.
        InnerMmcs.fault s c (map (widened EF.DIMENSION) ds) i (map (flat_map EF.coefficients) rows)
        p e };

    ghost multi_opens = { λ s c ds is rows p.
        InnerMmcs.multi_opens s c (map (widened EF.DIMENSION) ds) is
        (map (map (flat_map EF.coefficients)) rows) p };

    ghost multi_fault = { λ s c ds is rows p e.
        InnerMmcs.multi_fault s c (map (widened EF.DIMENSION) ds) is
        (map (map (flat_map EF.coefficients)) rows) p e };

    fn commit(
        &self,
        alloc: Global,
        inputs: Vec<RowMajorMatrix<EF>>,
    ) -> Mem<(InnerMmcs::Commitment, ExtensionMmcsData<F, EF, InnerMmcs>)>
        requires batch { IsBatch inputs.items }
        requires widths { All (λ m. (m.width * EF.DIMENSION < 2 ^ 64)
            × InnerMmcs.takes (m.width * EF.DIMENSION)) inputs.items }
        ensures matrices { IfOk result (λ w. w.1.matrices ≡ inputs.items) }
        ensures belongs { IfOk result (λ w. InnerMmcs.belongs self.now w.1.inner w.0) }
    {
        let flat = flattened_matrices(alloc, &inputs)?;
        let (commitment, inner) = self.inner.commit(alloc, flat)?;
        Ok((
            commitment,
            ExtensionMmcsData {
                inner,
                matrices: inputs,
                field: PhantomData,
            },
        ))
    }

    fn open_batch(
        &self,
        alloc: Global,
        index: usize,
        prover_data: &ExtensionMmcsData<F, EF, InnerMmcs>,
    ) -> Mem<BatchOpening<EF, Self>> {
        let opening = self.inner.open_batch(alloc, index, &prover_data.inner)?;
        let (rows, opening_proof) = opening.unpack();
        let opened_values = restored_rows(alloc, &rows)?;
        Ok(BatchOpening {
            opened_values,
            opening_proof,
        })
    }

    fn get_matrices<'a>(
        &self,
        prover_data: &'a ExtensionMmcsData<F, EF, InnerMmcs>,
    ) -> &'a [RowMajorMatrix<EF>] {
        &prover_data.matrices
    }

    fn verify_batch(
        &self,
        alloc: Global,
        commit: &InnerMmcs::Commitment,
        dimensions: &[Dimensions],
        index: usize,
        opening: BatchOpeningRef<'_, EF, Self>,
    ) -> Result<(), PcsFailure<InnerMmcs::Error>>
        requires { All (λ d. (d.width * EF.DIMENSION < 2 ^ 64)
            × InnerMmcs.takes (d.width * EF.DIMENSION)) dimensions.now }
        ensures { VerifiedBy (InnerMmcs.opens self.now commit.now
            (map (widened EF.DIMENSION) dimensions.now) index
            (map (flat_map EF.coefficients) (lists opening.entry.opened_values.now))
            opening.entry.opening_proof.now)
            (InnerMmcs.fault self.now commit.now (map (widened EF.DIMENSION) dimensions.now) index
            (map (flat_map EF.coefficients) (lists opening.entry.opened_values.now))
            opening.entry.opening_proof.now) result }
    {
        let rows = flattened_rows(alloc, opening.opened_values)?;
        let wide = widened_dimensions::<F, EF>(alloc, dimensions)?;
        let inner = BatchOpeningRef {
            opened_values: &rows,
            opening_proof: opening.opening_proof,
        };
        self.inner.verify_batch(alloc, commit, &wide, index, inner)
    }

    fn open_multi_batch(
        &self,
        alloc: Global,
        indices: &[usize],
        prover_data: &ExtensionMmcsData<F, EF, InnerMmcs>,
    ) -> Mem<(Vec<Vec<Vec<EF>>>, InnerMmcs::MultiProof)> {
        let (openings, proof) = self
            .inner
            .open_multi_batch(alloc, indices, &prover_data.inner)?;
        let restored = restored_openings(alloc, &openings)?;
        Ok((restored, proof))
    }

    fn verify_multi_batch(
        &self,
        alloc: Global,
        commit: &InnerMmcs::Commitment,
        dimensions: &[Dimensions],
        indices: &[usize],
        opened_values: &[Vec<Vec<EF>>],
        proof: &InnerMmcs::MultiProof,
    ) -> Result<(), PcsFailure<InnerMmcs::Error>> {
        let openings = flattened_openings(alloc, opened_values)?;
        let wide = widened_dimensions::<F, EF>(alloc, dimensions)?;
        self.inner
            .verify_multi_batch(alloc, commit, &wide, indices, &openings, proof)
    }

    ghost opens_faultless = { λ s c ds i rows p h.
        InnerMmcs.opens_faultless s c (map (widened EF.DIMENSION) ds) i
        (map (flat_map EF.coefficients) rows) p h };

    ghost multi_opens_faultless = { λ s c ds is rows p h.
        InnerMmcs.multi_opens_faultless s c (map (widened EF.DIMENSION) ds) is
        (map (map (flat_map EF.coefficients)) rows) p h };

    ghost some_fault = { λ s c ds i rows p n f.
        InnerMmcs.some_fault s c (map (widened EF.DIMENSION) ds) i
        (map (flat_map EF.coefficients) rows) p n f };

    ghost multi_some_fault = { λ s c ds is rows p n f.
        InnerMmcs.multi_some_fault s c (map (widened EF.DIMENSION) ds) is
        (map (map (flat_map EF.coefficients)) rows) p n f };

    ghost one_fault = { λ s c ds i rows p e g f h.
        InnerMmcs.one_fault s c (map (widened EF.DIMENSION) ds) i
        (map (flat_map EF.coefficients) rows) p e g f h };

    ghost multi_one_fault = { λ s c ds is rows p e g f h.
        InnerMmcs.multi_one_fault s c (map (widened EF.DIMENSION) ds) is
        (map (map (flat_map EF.coefficients)) rows) p e g f h };

    ghost opened_widths = { λ s c ds i rows p h.
        flat_widths EF.DIMENSION EF.coefficients EF.from_coefficients EF.vector_laws ds rows
        (InnerMmcs.opened_widths s c (map (widened EF.DIMENSION) ds) i
        (map (flat_map EF.coefficients) rows) p h) };

    ghost multi_opened_widths = { λ s c ds is rows p h.
        flat_widths_each EF.DIMENSION EF.coefficients EF.from_coefficients EF.vector_laws ds rows
        (InnerMmcs.multi_opened_widths s c (map (widened EF.DIMENSION) ds) is
        (map (map (flat_map EF.coefficients)) rows) p h) };
}
