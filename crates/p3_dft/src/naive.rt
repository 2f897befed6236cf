//! The transform by its definition.
ghost use Rattle.std.specs.Prelude.{◌≡◌, ℕ, ◌+◌, ◌*◌, ◌^◌, ◌<◌, ◌≤◌, length, map, IfOk};
ghost use Rattle.p3_field.specs.Ring.{Ring, pow};
ghost use Rattle.p3_field.specs.Poly.{eval_poly, tabulate};
ghost use Rattle.p3_field.specs.Domain.{coset_point};
ghost use Rattle.p3_matrix.specs.Matrix.{Rows, height, column};
ghost use Rattle.p3_dft.specs.Transform.{TurnsIn, values_at};

use crate::rows::RowTransform;
use p3_field::{ExtensionField, Field, FieldCore, Mem, PrimeCharacteristicRing, RingCore};
use p3_matrix::RowMajorMatrix;
use std::alloc::Global;

/// The transform that evaluates at each point by itself, in about n^2 products for n values, which no clause says. It
/// serves as the reference of the others (`p3_dft::NaiveDft`).
#[derive(Clone, Copy, Debug)]
pub struct NaiveDft;

impl RowTransform for NaiveDft {
    fn rows_on_powers<F: Field>(
        &self,
        alloc: Global,
        m: &RowMajorMatrix<F>,
        shift: F,
        generator: F,
        bits: usize,
    ) -> Mem<RowMajorMatrix<F>> {
        let size: usize = 1 << bits;
        let mut values = Vec::new(alloc);
        let mut point = shift;
        for _ in 0..size {
            let row = values_at_point(alloc, m, point)?;
            values.extend_from_slice(&row)?;
            point = point * generator;
        }
        Ok(RowMajorMatrix::new(values, m.width()))
    }
}

// The value at a point of each column's polynomial.
fn values_at_point<F: Field>(alloc: Global, m: &RowMajorMatrix<F>, point: F) -> Mem<Vec<F>>
    ensures { IfOk result (λ v.
        v.items ≡ tabulate m.now.width (λ j. eval_poly F.ring (column F.ring.zero m.now j) point)) }
{
    let mut values = Vec::with_capacity(alloc, m.width())?;
    for j in 0..m.width() {
        let coefficients = m.column(alloc, j)?;
        values.push(polynomial_value(&coefficients, point))?;
    }
    Ok(values)
}

/// The value at a point of an extension field, or of the field itself, of the polynomial with these coefficients, lowest
/// first, by Horner's rule (not in Plonky3).
pub fn polynomial_value<F: Field, EF: ExtensionField<F>>(coefficients: &[F], point: EF) -> EF
    ensures { result ≡ eval_poly EF.ring (map EF.embed coefficients.now) point }
{
    let mut sum = EF::ZERO;
    let mut i = coefficients.len();
    while i > 0 {
        i -= 1;
        sum = sum * point + EF::from_base(coefficients[i]);
    }
    sum
}
