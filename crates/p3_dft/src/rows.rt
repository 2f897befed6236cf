//! Transforms of all columns of a matrix at once, by any way to evaluate them on the powers of a root of unity.
ghost use Rattle.std.specs.Prelude.{◌≡◌, ℕ, ◌+◌, ◌*◌, ◌/◌, ◌^◌, ◌<◌, ◌≤◌, length, IfOk};
ghost use Rattle.p3_field.specs.Ring.{Ring, pow};
ghost use Rattle.p3_field.specs.Domain.{coset_point, IsInterpolant};
ghost use Rattle.p3_matrix.specs.Matrix.{Rows, FillsRows, height, column};
ghost use Rattle.p3_dft.specs.Transform.{TurnsIn, values_at, weighted};

use p3_field::{
    Field, FieldCore, Mem, PrimeCharacteristicRing, RingCore, TwoAdicCore, TwoAdicField,
};
use p3_matrix::RowMajorMatrix;
use std::alloc::Global;

// A way to evaluate the polynomials whose coefficients, lowest first, are a matrix's columns, at shift, shift * generator, ..,
// of which there are 2^bits and at least as many as rows: row i of the result has the values at shift * generator^i. The
// generator turns in `bits` doublings: to the power 2^(bits - 1) it is minus one, but for no bits.
pub(crate) trait RowTransform {
    fn rows_on_powers<F: Field>(
        &self,
        alloc: Global,
        m: &RowMajorMatrix<F>,
        shift: F,
        generator: F,
        bits: usize,
    ) -> Mem<RowMajorMatrix<F>>
        requires bits { bits < 64 }
        requires fits { height m.now ≤ 2 ^ bits }
        requires turns { TurnsIn F.ring bits generator }
        ensures width { IfOk result (λ v. v.width ≡ m.now.width) }
        ensures height { IfOk result (λ v. 0 < m.now.width → height v ≡ 2 ^ bits) }
        ensures columns { IfOk result (λ v. (j : ℕ) → j < m.now.width
            → column F.ring.zero v j
            ≡ values_at F.ring (coset_point F.ring shift generator) (2 ^ bits)
            (column F.ring.zero m.now j)) };
}

// Row i times weight * step^i.
fn weighed_rows<F: Field>(m: RowMajorMatrix<F>, weight: F, step: F) -> RowMajorMatrix<F>
    requires { 0 < m.width }
    ensures width { result.width ≡ m.width }
    ensures height { height result ≡ height m }
    ensures columns { (j : ℕ) → j < m.width
        → column F.ring.zero result j ≡ weighted F.ring weight step (column F.ring.zero m j) }
{
    let width = m.width();
    let rows = m.height();
    let mut values = m.values;
    let mut factor = weight;
    for row in 0..rows {
        for at in row * width..row * width + width {
            values[at] = values[at] * factor;
        }
        factor = factor * step;
    }
    RowMajorMatrix::new(values, width)
}

// The columns' values on a coset, by this transform.
pub(crate) fn coset_values<F: TwoAdicField, T: RowTransform>(
    transform: &T,
    alloc: Global,
    m: &RowMajorMatrix<F>,
    shift: F,
    log_size: usize,
) -> Mem<RowMajorMatrix<F>>
    requires subgroup { log_size ≤ F.TWO_ADICITY }
    requires fits { height m.now ≤ 2 ^ log_size }
    ensures width { IfOk result (λ v. v.width ≡ m.now.width) }
    ensures columns { IfOk result (λ v. (j : ℕ) → j < m.now.width
        → column F.ring.zero v j
        ≡ values_at F.ring (coset_point F.ring shift (F.root log_size)) (2 ^ log_size)
        (column F.ring.zero m.now j)) }
{
    transform.rows_on_powers(alloc, m, shift, F::two_adic_generator(log_size), log_size)
}

// The coefficients of the columns' interpolants on a coset, by this transform: with the inverse generator it leads from
// values to coefficients, but for a weight. There are three inversions, whatever the width.
pub(crate) fn coset_interpolants<F: TwoAdicField, T: RowTransform>(
    transform: &T,
    alloc: Global,
    m: &RowMajorMatrix<F>,
    shift: F,
    log_size: usize,
) -> Mem<RowMajorMatrix<F>>
    requires subgroup { log_size ≤ F.TWO_ADICITY }
    requires size { height m.now ≡ 2 ^ log_size }
    requires shift { shift ≡ F.ring.zero → ⊥ }
    ensures width { IfOk result (λ v. v.width ≡ m.now.width) }
    ensures height { IfOk result (λ v. height v ≡ 2 ^ log_size) }
    ensures columns { IfOk result (λ v. (j : ℕ) → j < m.now.width
        → IsInterpolant F.ring (coset_point F.ring shift (F.root log_size))
        (column F.ring.zero m.now j) (column F.ring.zero v j)) }
{
    let generator = F::two_adic_generator(log_size).inverse();
    let values = transform.rows_on_powers(alloc, m, F::ONE, generator, log_size)?;
    let weight = F::from_u64(1 << log_size).inverse();
    Ok(weighed_rows(values, weight, shift.inverse()))
}
