//! Matrices over a field above another as matrices over that one.
ghost use Rattle.std.specs.Prelude.{◌≡◌, ◌*◌, ◌<◌, IfOk};
ghost use Rattle.std.specs.List.{flat_map};
ghost use Rattle.p3_matrix.specs.Matrix.{FillsRows, height};

use p3_field::{BasedVectorSpace, ExtensionField, Field, FieldCore, Mem, RingCore};
use p3_matrix::RowMajorMatrix;
use std::alloc::Global;

// The matrix in which each value of a row is replaced by its coefficients, in order (as `flatten_matrix` of `p3_matrix`, but that of a matrix
// with a row no bound of the width is asked, since the values themselves are at least as many).
pub(crate) fn flattened<F: Field, EF: ExtensionField<F>>(
    alloc: Global,
    m: &RowMajorMatrix<EF>,
) -> Mem<RowMajorMatrix<F>>
    requires { 0 < height m.now }
    ensures fills { FillsRows m.now.values m.now.width }
    ensures flat { IfOk result
        (λ f. f ≡ record {
          values = flat_map EF.coefficients m.now.values;
          width = m.now.width * EF.DIMENSION;
        }) }
{
    let values = EF::flatten_to_base(alloc, m.as_slice())?;
    Ok(RowMajorMatrix::new(values, m.width() * EF::DIMENSION))
}
