//! The radix-2 transform, decimated in time, of all columns of a matrix at once and in place.
ghost use Rattle.std.specs.Prelude.{◌≡◌, ℕ, ◌+◌, ◌-◌, ◌*◌, ◌/◌, ◌^◌, ◌<◌, ◌≤◌, List, length, get_or, IfOk};
ghost use Rattle.p3_field.specs.Ring.{Ring, pow, sub};
ghost use Rattle.p3_field.specs.Domain.{coset_point};
ghost use Rattle.p3_matrix.specs.Matrix.{Rows, height, column};
ghost use Rattle.p3_dft.specs.Transform.{TurnsIn, values_at};
ghost use Rattle.p3_dft.specs.Reversed.{summed, subtracted, PutsReversed, AreReversed, AreValues};

use crate::rows::RowTransform;
use p3_field::{Field, FieldCore, Mem, PrimeCharacteristicRing, RingCore};
use p3_matrix::RowMajorMatrix;
use std::alloc::Global;

/// The radix-2 transform, decimated in time: rows are put in bit-reversed order, and then the values of the polynomials
/// come, in place and for all columns at once, from those of their parts at even and at odd places, on the squares of the
/// points. For n rows it takes about n log n products a column. No clause says so: the clauses tell what a transform
/// gives, and not which one runs (`p3_dft::Radix2Dit`).
#[derive(Clone, Copy, Debug)]
pub struct Radix2Dit;

impl RowTransform for Radix2Dit {
    fn rows_on_powers<F: Field>(
        &self,
        alloc: Global,
        m: &RowMajorMatrix<F>,
        shift: F,
        generator: F,
        bits: usize,
    ) -> Mem<RowMajorMatrix<F>> {
        let width = m.width();
        // For the proof alone: `height` tells that the values fill whole rows.
        m.height();
        if width == 0 {
            return Ok(RowMajorMatrix::new(Vec::new(alloc), 0));
        }
        let size: usize = 1 << bits;
        let mut values = Vec::with_capacity(alloc, size.saturating_mul(width))?;
        push_reversed(&mut values, m, 0, 1, bits)?;
        transform_rows(&mut values, width, shift, generator, bits);
        Ok(RowMajorMatrix::new(values, width))
    }
}

// Puts 2^bits rows after those that are there: rows start, start + stride, .. of a matrix, and zeros past its end, in
// bit-reversed order, so first those at even places of these, and then those at odd ones, each in this order.
fn push_reversed<F: RingCore>(
    rows: &mut Vec<F>,
    m: &RowMajorMatrix<F>,
    start: usize,
    stride: usize,
    bits: usize,
) -> Mem<()>
    requires start { start < stride }
    requires fits { stride * 2 ^ bits < 2 ^ 64 }
    ensures { IfOk result (λ _.
        PutsReversed F.ring m.now start stride bits rows.old.items rows.new.items) }
{
    if bits > 0 {
        push_reversed(rows, m, start, 2 * stride, bits - 1)?;
        push_reversed(rows, m, start + stride, 2 * stride, bits - 1)?;
        Ok(())
    } else if start < m.height() {
        rows.extend_from_slice(m.row(start))?;
        Ok(())
    } else {
        push_zeros(rows, m.width())?;
        Ok(())
    }
}

// Puts so many zeros after what is there.
fn push_zeros<F: RingCore>(rows: &mut Vec<F>, count: usize) -> Mem<()>
    ensures length { IfOk result (λ _. length rows.new.items ≡ length rows.old.items + count) }
    ensures before { IfOk result
        (λ _. (k : ℕ) → k < length rows.old.items
        → get_or rows.new.items k F.ring.zero ≡ get_or rows.old.items k F.ring.zero) }
    ensures zeros { IfOk result
        (λ _. (k : ℕ) → length rows.old.items ≤ k
        → get_or rows.new.items k F.ring.zero ≡ F.ring.zero) }
{
    for _ in 0..count {
        rows.push(F::ZERO)?;
    }
    Ok(())
}

// One step of the transform on rows: from the values of the two parts, e and o in row i, those of the whole, e + x o and
// e - x o, where x is shift * generator^i, which is stepped once a row.
fn combine_rows<F: Field>(first: &mut [F], second: &mut [F], width: usize, shift: F, generator: F)
    requires same { length first.old ≡ length second.old }
    requires positive { 0 < width }
    requires filled { length first.old / width * width ≡ length first.old }
    ensures first { (k : ℕ) → k < length first.old
        → get_or first.new k F.ring.zero
        ≡ summed F.ring width shift generator first.old second.old k }
    ensures second { (k : ℕ) → k < length first.old
        → get_or second.new k F.ring.zero
        ≡ subtracted F.ring width shift generator first.old second.old k }
{
    let rows = first.len() / width;
    let mut point = shift;
    for row in 0..rows {
        for at in row * width..row * width + width {
            let turned = point * second[at];
            let even = first[at];
            first[at] = even + turned;
            second[at] = even - turned;
        }
        point = point * generator;
    }
}

// From the coefficients of each column's polynomial in bit-reversed order to its values at shift, shift * generator, ..,
// of which there are 2^bits, in place.
fn transform_rows<F: Field>(values: &mut [F], width: usize, shift: F, generator: F, bits: usize)
    requires positive { 0 < width }
    requires bits { bits < 64 }
    requires filled { length values.old ≡ 2 ^ bits * width }
    requires turns { TurnsIn F.ring bits generator }
    ensures length { length values.new ≡ length values.old }
    ensures columns { (j : ℕ) (f : List F) → j < width → length f ≤ 2 ^ bits
        → AreReversed F.ring width bits values.old j f
        → AreValues F.ring width shift generator bits values.new j f }
{
    if bits > 0 {
        let half = values.len() / 2;
        let (first, second) = values.split_at_mut(half);
        transform_rows(first, width, shift.square(), generator.square(), bits - 1);
        transform_rows(second, width, shift.square(), generator.square(), bits - 1);
        combine_rows(first, second, width, shift, generator);
    }
}
