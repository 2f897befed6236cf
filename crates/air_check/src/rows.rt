//! What a check of a table's rows is made of, with lookups or without.
ghost use Rattle.std.specs.Prelude.{◌≡◌, ◌<◌, map, length, IfOk, All, IsTrue, ◌↔◌};
ghost use Rattle.std.specs.Option.{option_map};
ghost use Rattle.air_core.specs.Check.{AreNonzero, HasHeight, periodic_row};

use p3_field::{Field, FieldCore, Mem, RingCore};
use p3_matrix::RowMajorMatrix;
use std::alloc::Global;

/// The places of the values that aren't zero, in order (not in Plonky3).
pub fn nonzero_places<F: Field>(alloc: Global, values: &[F]) -> Mem<Vec<usize>>
    ensures { IfOk result (λ v. AreNonzero F.ring values.now v.items) }
{
    let mut places = Vec::new(alloc);
    for i in 0..values.len() {
        if !values[i].is_zero() {
            places.push(i)?;
        }
    }
    Ok(places)
}

/// The values of the periodic columns at a row, which reads a column at its number modulo the column's length (not in Plonky3).
/// No column is empty.
pub fn periodic_at<F: Field>(alloc: Global, columns: &[Vec<F>], row: usize) -> Mem<Vec<F>>
    requires { All (λ c. 0 < length c.items) columns.now }
    ensures { IfOk result (λ v.
        v.items ≡ periodic_row F.ring.zero (map (λ c. c.items) columns.now) row) }
{
    let mut values = Vec::new(alloc);
    for column in columns {
        values.push(column[row % column.len()])?;
    }
    Ok(values)
}

/// Whether the trace, if there is one, has this height (not in Plonky3).
pub fn has_height<F>(trace: Option<&RowMajorMatrix<F>>, height: usize) -> bool
    ensures { IsTrue result ↔ HasHeight (option_map (λ m. m.now) trace.entry) height }
{
    match trace {
        Some(m) => m.height() == height,
        None => true,
    }
}
