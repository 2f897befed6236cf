//! Values of interpolants outside of their domain.
ghost use Rattle.std.specs.Prelude.{◌≡◌, ℕ, ◌+◌, ◌*◌, ◌/◌, ◌^◌, ◌<◌, ◌≤◌, length, get_or, IfOk};
ghost use Rattle.std.specs.Int.{IsPowerOfTwo};
ghost use Rattle.p3_field.specs.Ring.{Ring, pow, of_nat};
ghost use Rattle.p3_field.specs.Poly.{tabulate, total};
ghost use Rattle.p3_field.specs.Domain.{coset_point};
ghost use Rattle.p3_matrix.specs.Matrix.{Rows, height, cell_at, column};
ghost use Rattle.p3_matrix.specs.Interpolation.{IsInterpolatedAt, weight_at, ratio_minus_one};

use crate::dense::RowMajorMatrix;
use crate::inverses::scaled_inverses;
use crate::util::log2_strict_usize;
use p3_field::{
    ExtensionField, Field, FieldCore, Mem, PrimeCharacteristicRing, RingCore, TwoAdicCore,
    TwoAdicField,
};
use std::alloc::Global;

/// 1 + x + .. + x^(2^bits - 1), as the product of 1 + x^(2^j) for j below `bits` (not in Plonky3).
pub fn sum_of_powers<F: PrimeCharacteristicRing>(x: F, bits: usize) -> F
    ensures { result ≡ total F.ring (2 ^ bits) (λ i. pow F.ring x i) }
{
    let mut product = F::ONE;
    let mut power = x;
    for _ in 0..bits {
        product = product * (F::ONE + power);
        power = power.square();
    }
    product
}

// The weights of the values on a coset in the interpolant's value at a point. Outside of the coset they are quotients, by
// one inversion and four products a weight; on it, where a divisor is zero, they are sums.
fn interpolation_weights<F: TwoAdicField, EF: ExtensionField<F>>(
    alloc: Global,
    log_size: usize,
    shift: F,
    point: EF,
) -> Mem<Vec<EF>>
    requires subgroup { log_size ≤ F.TWO_ADICITY }
    requires shift { shift ≡ F.ring.zero → ⊥ }
    ensures { IfOk result (λ v. v.items
        ≡ tabulate (2 ^ log_size)
        (weight_at EF.ring (2 ^ log_size) (EF.embed (F.inv (of_nat F.ring (2 ^ log_size))))
        (EF.embed (F.inv (F.root log_size)))
        (EF.ring.mul (EF.embed (F.inv shift)) point))) }
{
    let size: usize = 1 << log_size;
    let scale = EF::from_base(F::from_u64(size as u64).inverse());
    let step = EF::from_base(F::two_adic_generator(log_size).inverse());
    let ratio = EF::from_base(shift.inverse()) * point;
    let vanishing = ratio.exp_power_of_2(log_size) - EF::ONE;
    if vanishing.is_zero() {
        weights_by_sums(alloc, log_size, scale, step, ratio)
    } else {
        let divisors = ratios_minus_one(alloc, size, step, ratio)?;
        scaled_inverses(alloc, &divisors, scale * vanishing)
    }
}

// The weights of a scale, a step and a ratio, each by a sum of powers, so that none is a quotient.
fn weights_by_sums<F: Field>(
    alloc: Global,
    log_size: usize,
    scale: F,
    step: F,
    ratio: F,
) -> Mem<Vec<F>>
    requires { log_size < 64 }
    ensures { IfOk result (λ v.
        v.items ≡ tabulate (2 ^ log_size) (weight_at F.ring (2 ^ log_size) scale step ratio)) }
{
    let size: usize = 1 << log_size;
    let mut turned = ratio;
    let mut weights = Vec::with_capacity(alloc, size)?;
    for _ in 0..size {
        weights.push(scale * sum_of_powers(turned, log_size))?;
        turned = step * turned;
    }
    Ok(weights)
}

// The ratio times each of the first `size` powers of the step, minus one.
fn ratios_minus_one<F: Field>(alloc: Global, size: usize, step: F, ratio: F) -> Mem<Vec<F>>
    ensures { IfOk result (λ v. v.items ≡ tabulate size (ratio_minus_one F.ring step ratio)) }
{
    let mut turned = ratio;
    let mut divisors = Vec::with_capacity(alloc, size)?;
    for _ in 0..size {
        divisors.push(turned - F::ONE)?;
        turned = step * turned;
    }
    Ok(divisors)
}

// The sum of a column's values times the weights.
fn weighted_column<F: Field, EF: ExtensionField<F>>(
    m: &RowMajorMatrix<F>,
    column: usize,
    weights: &[EF],
) -> EF
    requires column { column < m.now.width }
    requires rows { length weights.now ≡ height m.now }
    ensures { result ≡ total EF.ring (height m.now)
        (λ i. EF.ring.mul (EF.embed (cell_at F.ring.zero m.now i column))
        (get_or weights.now i EF.ring.zero)) }
{
    let mut sum = EF::ZERO;
    for (row, weight) in weights.iter().enumerate() {
        sum = sum + EF::from_base(m.values[row * m.width + column]) * *weight;
    }
    sum
}

/// The value at a point of each column's interpolant on the coset with this shift and as many points as rows, one
/// value a column, in order. At a point of the coset it gives that row's values. The height is a power of two up to
/// 2^`TWO_ADICITY`, and the shift isn't zero (`p3_matrix::interpolation::Interpolate`).
pub fn interpolate_coset<F: TwoAdicField, EF: ExtensionField<F>>(
    alloc: Global,
    m: &RowMajorMatrix<F>,
    shift: F,
    point: EF,
) -> Mem<Vec<EF>>
    requires power { IsPowerOfTwo (height m.now) }
    requires subgroup { height m.now ≤ 2 ^ F.TWO_ADICITY }
    requires shift { shift ≡ F.ring.zero → ⊥ }
    ensures width { IfOk result (λ v. length v.items ≡ m.now.width) }
    ensures values { IfOk result (λ v. (j k : ℕ) → j < m.now.width → height m.now ≡ 2 ^ k
        → IsInterpolatedAt F.ring EF.ring EF.embed (coset_point F.ring shift (F.root k))
        (column F.ring.zero m.now j) point (get_or v.items j EF.ring.zero)) }
{
    let weights = interpolation_weights(alloc, log2_strict_usize(m.height()), shift, point)?;
    let mut values = Vec::with_capacity(alloc, m.width())?;
    for column in 0..m.width() {
        values.push(weighted_column(m, column, &weights))?;
    }
    Ok(values)
}
