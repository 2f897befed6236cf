//! Permutation columns from their flattened ones, and the periodic columns' values row by row.
ghost use Rattle.std.specs.Prelude.{◌≡◌, ◌*◌, ◌<◌, IfOk, IfSome};
ghost use Rattle.std.specs.Option.{option_map};
ghost use Rattle.p3_field.specs.Field.{Extension};
ghost use Rattle.p3_matrix.specs.Matrix.{height};
ghost use Rattle.law_committed.specs.Rows.{flattened_matrix};
ghost use Rattle.batch_constraints.specs.Fields.{extension_of};
ghost use Rattle.prover_values.specs.QuotientRows.{periodic_at};

use commit_core::PeriodicLdeTable;
use p3_field::{
    BasedVectorSpace, ExtensionField, Field, FieldCore, Mem, PrimeCharacteristicRing, RingCore,
};
use p3_matrix::RowMajorMatrix;
use std::alloc::Global;

// The columns of a matrix over the larger field, of which there are so many, from their flattened ones.
fn recombined_matrix<F: Field, E: ExtensionField<F>>(
    alloc: Global,
    flattened: &RowMajorMatrix<F>,
    columns: usize,
) -> Mem<RowMajorMatrix<E>>
    requires { flattened.now.width ≡ columns * E.DIMENSION }
    ensures { let e : Extension F E = extension_of E.ring E.embed E.DIMENSION E.basis E.coefficients
        E.from_coefficients in
        IfOk result (λ m. flattened.now ≡ flattened_matrix e m) }
{
    let values = E::reconstitute_from_base(alloc, flattened.as_slice())?;
    Ok(RowMajorMatrix::new(values, columns))
}

// The same of a matrix that may be absent.
pub(crate) fn recombined_columns<F: Field, E: ExtensionField<F>>(
    alloc: Global,
    flattened: Option<&RowMajorMatrix<F>>,
    columns: usize,
) -> Mem<Option<RowMajorMatrix<E>>>
    requires { IfSome flattened (λ m. m.now.width ≡ columns * E.DIMENSION) }
    ensures { let e : Extension F E = extension_of E.ring E.embed E.DIMENSION E.basis E.coefficients
        E.from_coefficients in
        IfOk result
        (λ p. option_map (λ m. m.now) flattened.entry ≡ option_map (flattened_matrix e) p) }
{
    match flattened {
        Some(m) => {
            let matrix = recombined_matrix(alloc, m, columns)?;
            Ok(Some(matrix))
        }
        None => Ok(None),
    }
}

// Puts the periodic columns' values at a row into a list. Where it has room for them, no memory is taken.
pub(crate) fn read_periodic<F: Field>(
    values: &mut Vec<F>,
    table: &PeriodicLdeTable<F>,
    row: usize,
) -> Mem<()>
    requires { 0 < table.now.width → 0 < height table.now }
    ensures { IfOk result (λ _. values.new.items ≡ periodic_at F.ring.zero table.now row) }
{
    values.clear();
    for column in 0..table.width() {
        values.push(*table.get(row, column))?;
    }
    Ok(())
}
