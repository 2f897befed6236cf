//! Transforms of all columns of a matrix.
ghost use Rattle.std.specs.Prelude.{◌≡◌, ℕ, ◌+◌, ◌*◌, ◌/◌, ◌^◌, ◌<◌, ◌≤◌, length, IfOk};
ghost use Rattle.std.specs.Int.{IsPowerOfTwo};
ghost use Rattle.p3_field.specs.Ring.{Ring, pow};
ghost use Rattle.p3_field.specs.Domain.{coset_point, IsInterpolant};
ghost use Rattle.p3_matrix.specs.Matrix.{Rows, FillsRows, height, column};
ghost use Rattle.p3_dft.specs.Transform.{values_at, IsTransformOf, IsInverseTransformOf, IsExtensionOf};

use crate::naive::NaiveDft;
use crate::radix2::Radix2Dit;
use crate::rows::{RowTransform, coset_interpolants, coset_values};
use p3_field::{Mem, TwoAdicCore, TwoAdicField};
use p3_matrix::{RowMajorMatrix, log2_strict_usize};
use std::alloc::Global;

/// Transforms of all columns of a matrix between coefficients and values on two-adic subgroups
/// (`p3_dft::TwoAdicSubgroupDft`).
///
/// The height is a power of two, and at most the size of the largest subgroup. Row i of a matrix of values has those at
/// point i of the subgroup or coset, in order and not bit-reversed. A result has as many columns as the argument.
pub trait TwoAdicSubgroupDft<F: TwoAdicCore> {
    /// Takes a column's coefficients, lowest first, to the polynomial's values on the subgroup.
    fn dft_batch(&self, alloc: Global, m: RowMajorMatrix<F>) -> Mem<RowMajorMatrix<F>>
        requires power { IsPowerOfTwo (height m) }
        requires subgroup { height m ≤ 2 ^ F.TWO_ADICITY }
        ensures { IfOk result (IsTransformOf F.ring F.root m) };

    /// Takes a column's values on the subgroup to the coefficients of their interpolant.
    fn idft_batch(&self, alloc: Global, m: RowMajorMatrix<F>) -> Mem<RowMajorMatrix<F>>
        requires power { IsPowerOfTwo (height m) }
        requires subgroup { height m ≤ 2 ^ F.TWO_ADICITY }
        ensures { IfOk result (IsInverseTransformOf F.ring F.root m) };

    /// Takes a column's values on the subgroup to the interpolant's values on the coset with this shift of the
    /// subgroup that is 2^added_bits times as large. The result has 2^added_bits times as many rows, which are at most
    /// as many as the largest subgroup has points, and the shift isn't zero.
    fn coset_lde_batch(
        &self,
        alloc: Global,
        m: RowMajorMatrix<F>,
        added_bits: usize,
        shift: F,
    ) -> Mem<RowMajorMatrix<F>>
        requires power { IsPowerOfTwo (height m) }
        requires subgroup { height m * 2 ^ added_bits ≤ 2 ^ F.TWO_ADICITY }
        requires shift { shift ≡ F.ring.zero → ⊥ }
        ensures { IfOk result (IsExtensionOf F.ring F.root added_bits shift m) };
}

// The three transforms, by this way to evaluate.
fn dft_columns<F: TwoAdicField, T: RowTransform>(
    transform: &T,
    alloc: Global,
    m: &RowMajorMatrix<F>,
) -> Mem<RowMajorMatrix<F>>
    requires power { IsPowerOfTwo (height m.now) }
    requires subgroup { height m.now ≤ 2 ^ F.TWO_ADICITY }
    ensures { IfOk result (IsTransformOf F.ring F.root m.now) }
{
    let log_height = log2_strict_usize(m.height());
    let values = coset_values(transform, alloc, m, F::ONE, log_height)?;
    Ok(values)
}

fn idft_columns<F: TwoAdicField, T: RowTransform>(
    transform: &T,
    alloc: Global,
    m: &RowMajorMatrix<F>,
) -> Mem<RowMajorMatrix<F>>
    requires power { IsPowerOfTwo (height m.now) }
    requires subgroup { height m.now ≤ 2 ^ F.TWO_ADICITY }
    ensures { IfOk result (IsInverseTransformOf F.ring F.root m.now) }
{
    let log_height = log2_strict_usize(m.height());
    let coefficients = coset_interpolants(transform, alloc, m, F::ONE, log_height)?;
    Ok(coefficients)
}

fn extended_columns<F: TwoAdicField, T: RowTransform>(
    transform: &T,
    alloc: Global,
    m: &RowMajorMatrix<F>,
    added_bits: usize,
    shift: F,
) -> Mem<RowMajorMatrix<F>>
    requires power { IsPowerOfTwo (height m.now) }
    requires subgroup { height m.now * 2 ^ added_bits ≤ 2 ^ F.TWO_ADICITY }
    requires shift { shift ≡ F.ring.zero → ⊥ }
    ensures { IfOk result (IsExtensionOf F.ring F.root added_bits shift m.now) }
{
    let log_height = log2_strict_usize(m.height());
    let coefficients = coset_interpolants(transform, alloc, m, F::ONE, log_height)?;
    let log_size = log_height + added_bits;
    let values = coset_values(transform, alloc, &coefficients, shift, log_size)?;
    Ok(values)
}

impl<F: TwoAdicField> TwoAdicSubgroupDft<F> for NaiveDft {
    fn dft_batch(&self, alloc: Global, m: RowMajorMatrix<F>) -> Mem<RowMajorMatrix<F>>
        requires power { IsPowerOfTwo (height m) }
        requires subgroup { height m ≤ 2 ^ F.TWO_ADICITY }
        ensures { IfOk result (IsTransformOf F.ring F.root m) }
    {
        dft_columns(self, alloc, &m)
    }

    fn idft_batch(&self, alloc: Global, m: RowMajorMatrix<F>) -> Mem<RowMajorMatrix<F>>
        requires power { IsPowerOfTwo (height m) }
        requires subgroup { height m ≤ 2 ^ F.TWO_ADICITY }
        ensures { IfOk result (IsInverseTransformOf F.ring F.root m) }
    {
        idft_columns(self, alloc, &m)
    }

    fn coset_lde_batch(
        &self,
        alloc: Global,
        m: RowMajorMatrix<F>,
        added_bits: usize,
        shift: F,
    ) -> Mem<RowMajorMatrix<F>>
        requires power { IsPowerOfTwo (height m) }
        requires subgroup { height m * 2 ^ added_bits ≤ 2 ^ F.TWO_ADICITY }
        requires shift { shift ≡ F.ring.zero → ⊥ }
        ensures { IfOk result (IsExtensionOf F.ring F.root added_bits shift m) }
    {
        extended_columns(self, alloc, &m, added_bits, shift)
    }
}

impl<F: TwoAdicField> TwoAdicSubgroupDft<F> for Radix2Dit {
    fn dft_batch(&self, alloc: Global, m: RowMajorMatrix<F>) -> Mem<RowMajorMatrix<F>>
        requires power { IsPowerOfTwo (height m) }
        requires subgroup { height m ≤ 2 ^ F.TWO_ADICITY }
        ensures { IfOk result (IsTransformOf F.ring F.root m) }
    {
        dft_columns(self, alloc, &m)
    }

    fn idft_batch(&self, alloc: Global, m: RowMajorMatrix<F>) -> Mem<RowMajorMatrix<F>>
        requires power { IsPowerOfTwo (height m) }
        requires subgroup { height m ≤ 2 ^ F.TWO_ADICITY }
        ensures { IfOk result (IsInverseTransformOf F.ring F.root m) }
    {
        idft_columns(self, alloc, &m)
    }

    fn coset_lde_batch(
        &self,
        alloc: Global,
        m: RowMajorMatrix<F>,
        added_bits: usize,
        shift: F,
    ) -> Mem<RowMajorMatrix<F>>
        requires power { IsPowerOfTwo (height m) }
        requires subgroup { height m * 2 ^ added_bits ≤ 2 ^ F.TWO_ADICITY }
        requires shift { shift ≡ F.ring.zero → ⊥ }
        ensures { IfOk result (IsExtensionOf F.ring F.root added_bits shift m) }
    {
        extended_columns(self, alloc, &m, added_bits, shift)
    }
}
