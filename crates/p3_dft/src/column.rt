//! Values and interpolants on a coset, of one column and of a matrix's columns.
ghost use Rattle.std.specs.Prelude.{◌≡◌, ℕ, ◌+◌, ◌*◌, ◌/◌, ◌^◌, ◌<◌, ◌≤◌, length, IfOk};
ghost use Rattle.p3_field.specs.Ring.{Ring, pow};
ghost use Rattle.p3_field.specs.Domain.{coset_point, IsInterpolant};
ghost use Rattle.p3_matrix.specs.Matrix.{Rows, FillsRows, height, column};
ghost use Rattle.p3_dft.specs.Transform.{values_at};

use crate::radix2::Radix2Dit;
use crate::rows::{coset_interpolants, coset_values};
use p3_field::{FieldCore, Mem, RingCore, TwoAdicCore, TwoAdicField};
use p3_matrix::RowMajorMatrix;
use std::alloc::Global;

/// The values of the polynomial with these coefficients, lowest first, at the 2^log_size points of a coset:
/// value i is that at shift * h^i, where h is `two_adic_generator(log_size)`. There are at most 2^log_size
/// coefficients, and log_size is at most `TWO_ADICITY`. The cost is that of a radix-2 transform, which no clause says
/// (not in Plonky3; `p3_dft` has it by the columns of a batch).
pub fn values_on_coset<F: TwoAdicField>(
    alloc: Global,
    coefficients: &[F],
    shift: F,
    log_size: usize,
) -> Mem<Vec<F>>
    requires subgroup { log_size ≤ F.TWO_ADICITY }
    requires fits { length coefficients.now ≤ 2 ^ log_size }
    ensures { IfOk result (λ v.
        v.items ≡ values_at F.ring (coset_point F.ring shift (F.root log_size)) (2 ^ log_size)
        coefficients.now) }
{
    let m = RowMajorMatrix::new_col(Vec::from_slice(alloc, coefficients)?);
    let values = coset_values(&Radix2Dit, alloc, &m, shift, log_size)?;
    Ok(values.values)
}

/// The coefficients, lowest first, of the interpolant of 2^log_size values on a coset: the only polynomial of that
/// many coefficients with value i at shift * h^i, where h is `two_adic_generator(log_size)`. The shift isn't zero, and
/// log_size is at most `TWO_ADICITY`. The cost is that of a radix-2 transform, which no clause says (not in Plonky3;
/// `p3_dft` has it by the columns of a batch).
pub fn interpolant_on_coset<F: TwoAdicField>(
    alloc: Global,
    values: &[F],
    shift: F,
    log_size: usize,
) -> Mem<Vec<F>>
    requires subgroup { log_size ≤ F.TWO_ADICITY }
    requires size { length values.now ≡ 2 ^ log_size }
    requires shift { shift ≡ F.ring.zero → ⊥ }
    ensures { IfOk result (λ f.
        IsInterpolant F.ring (coset_point F.ring shift (F.root log_size)) values.now f.items) }
{
    let m = RowMajorMatrix::new_col(Vec::from_slice(alloc, values)?);
    let coefficients = coset_interpolants(&Radix2Dit, alloc, &m, shift, log_size)?;
    Ok(coefficients.values)
}

/// The coefficients of the interpolants of a matrix's columns on a coset, in the result's columns: column j of the
/// result is what [`interpolant_on_coset`] gives of column j. The matrix has 2^log_size rows, the shift isn't zero, and
/// log_size is at most `TWO_ADICITY`. The cost is that of one radix-2 transform of all columns and three inversions,
/// which no clause says (not in Plonky3, where `coset_idft_batch` of `p3_dft` does the same).
pub fn interpolants_on_coset<F: TwoAdicField>(
    alloc: Global,
    values: &RowMajorMatrix<F>,
    shift: F,
    log_size: usize,
) -> Mem<RowMajorMatrix<F>>
    requires subgroup { log_size ≤ F.TWO_ADICITY }
    requires size { height values.now ≡ 2 ^ log_size }
    requires shift { shift ≡ F.ring.zero → ⊥ }
    ensures width { IfOk result (λ f. f.width ≡ values.now.width) }
    ensures height { IfOk result (λ f. height f ≡ 2 ^ log_size) }
    ensures columns { IfOk result (λ f. (j : ℕ) → j < values.now.width
        → IsInterpolant F.ring (coset_point F.ring shift (F.root log_size))
        (column F.ring.zero values.now j) (column F.ring.zero f j)) }
{
    coset_interpolants(&Radix2Dit, alloc, values, shift, log_size)
}
