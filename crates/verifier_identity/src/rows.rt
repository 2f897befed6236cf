//! The rows that a table's identity reads, from what a proof opens.
ghost use Rattle.std.specs.Prelude.{◌≡◌, ◌+◌, ◌*◌, ◌<◌, length, replicate, slice_range, IfOk};
ghost use Rattle.p3_field.specs.Field.{combine};
ghost use Rattle.verifier_identity.specs.OpenedRows.{recombined_row};
ghost use Rattle.batch_constraints.specs.Fields.{extension_of};

use p3_field::{
    BasedVectorSpace, ExtensionField, Field, FieldCore, Mem, PrimeCharacteristicRing, RingCore,
};
use std::alloc::Global;

/// The values of permutation columns at a point, from those of their flattened columns there: each column has as many
/// values in `row` as the larger field has dimensions, one for each coefficient. The only error is running out of memory.
pub fn recombined_row<F: Field, E: ExtensionField<F>>(
    alloc: Global,
    row: &[E],
    columns: usize,
) -> Mem<Vec<E>>
    requires { length row.now ≡ columns * E.DIMENSION }
    ensures { IfOk result (λ v. v.items
        ≡ recombined_row (extension_of E.ring E.embed E.DIMENSION E.basis E.coefficients
        E.from_coefficients) row.now columns) }
{
    let mut values = Vec::with_capacity(alloc, columns)?;
    for j in 0..columns {
        let start = j * E::DIMENSION;
        match E::from_ext_basis_coefficients(&row[start..start + E::DIMENSION]) {
            Some(value) => values.push(value)?,
            None => unreachable!(),
        }
    }
    Ok(values)
}

/// A row of so many zeros: the next row of a table that declares no next column. The only error is running out of memory.
pub fn zero_row<E: Field>(alloc: Global, width: usize) -> Mem<Vec<E>>
    ensures { IfOk result (λ v. v.items ≡ replicate width E.ring.zero) }
{
    vec![in alloc; E::ZERO; width]
}
