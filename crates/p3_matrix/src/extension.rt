//! Matrices over an extension as matrices over its base.
ghost use Rattle.std.specs.Prelude.{◌≡◌, ℕ, ◌+◌, ◌*◌, ◌/◌, ◌^◌, ◌<◌, ◌≤◌, length, IfOk};
ghost use Rattle.std.specs.List.{flat_map};
ghost use Rattle.p3_matrix.specs.Matrix.{Rows, FillsRows, height, row_at};

use crate::dense::RowMajorMatrix;
use p3_field::{BasedVectorSpace, ExtensionField, Field, FieldCore, Mem};
use std::alloc::Global;

/// The matrix in which each value of a row is replaced by its coefficients, in order (`flatten_to_base` of
/// `p3_matrix`'s extension matrices). From h rows of w columns it gives h rows of w * `DIMENSION` columns, a width that
/// has to fit `usize`.
pub fn flatten_matrix<F: Field, EF: ExtensionField<F>>(
    alloc: Global,
    m: &RowMajorMatrix<EF>,
) -> Mem<RowMajorMatrix<F>>
    requires { m.now.width * EF.DIMENSION < 2 ^ 64 }
    ensures flat { IfOk result
        (λ f. f ≡ record {
          values = flat_map EF.coefficients m.now.values;
          width = m.now.width * EF.DIMENSION;
        }) }
    ensures height { IfOk result (λ f. height f ≡ height m.now) }
    ensures rows { IfOk result
        (λ f. (i : ℕ) → i < height m.now → row_at f i ≡ flat_map EF.coefficients (row_at m.now i)) }
{
    let values = EF::flatten_to_base(alloc, m.as_slice())?;
    Ok(RowMajorMatrix::new(values, m.width() * EF::DIMENSION))
}
