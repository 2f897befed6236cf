//! Values of interpolants on a coset.
ghost use Rattle.std.specs.Prelude.{◌≡◌, ℕ, ◌+◌, ◌*◌, ◌^◌, ◌<◌, ◌≤◌, length, get_or, IfOk};
ghost use Rattle.p3_field.specs.Ring.{Ring, pow, of_nat};
ghost use Rattle.p3_field.specs.Poly.{tabulate, total};
ghost use Rattle.p3_field.specs.Domain.{point};
ghost use Rattle.p3_matrix.specs.Interpolation.{IsInterpolatedAt, weight_at};

use p3_field::{
    ExtensionField, Field, FieldCore, Mem, PrimeCharacteristicRing, RingCore, TwoAdicCore,
    TwoAdicField, TwoAdicMultiplicativeCoset,
};
use p3_matrix::sum_of_powers;
use std::alloc::Global;

// The value at x of the interpolant on a coset: the sum of the values times weights that need no inverse at x.
pub(crate) fn interpolated_at<F: TwoAdicField, EF: ExtensionField<F>>(
    domain: &TwoAdicMultiplicativeCoset<F>,
    values: &[F],
    x: EF,
) -> EF
    requires { length values.now ≡ 2 ^ domain.now.log_size }
    ensures { IsInterpolatedAt F.ring EF.ring EF.embed (point F.ring F.root domain.now) values.now x
        result }
{
    domain.valid();
    let log_size = domain.log_size();
    let scale = EF::from_base(F::from_u64(domain.size() as u64).inverse());
    let step = EF::from_base(domain.subgroup_generator().inverse());
    let mut ratio = EF::from_base(domain.shift_inverse()) * x;
    let mut sum = EF::ZERO;
    for value in values {
        sum = sum + EF::from_base(*value) * (scale * sum_of_powers(ratio, log_size));
        ratio = step * ratio;
    }
    sum
}

// The weights of the values on a coset in the interpolant's value at x, none of which is a quotient.
pub(crate) fn weights_at<F: TwoAdicField, EF: ExtensionField<F>>(
    alloc: Global,
    domain: &TwoAdicMultiplicativeCoset<F>,
    x: EF,
) -> Mem<Vec<EF>>
    ensures { IfOk result (λ v.
        v.items ≡ tabulate (2 ^ domain.now.log_size)
        (weight_at EF.ring (2 ^ domain.now.log_size)
        (EF.embed (F.inv (of_nat F.ring (2 ^ domain.now.log_size))))
        (EF.embed (F.inv (F.root domain.now.log_size)))
        (EF.ring.mul (EF.embed (F.inv domain.now.shift)) x))) }
{
    domain.valid();
    let log_size = domain.log_size();
    let size = domain.size();
    let scale = EF::from_base(F::from_u64(size as u64).inverse());
    let step = EF::from_base(domain.subgroup_generator().inverse());
    let mut ratio = EF::from_base(domain.shift_inverse()) * x;
    let mut weights = Vec::with_capacity(alloc, size)?;
    for _ in 0..size {
        weights.push(scale * sum_of_powers(ratio, log_size))?;
        ratio = step * ratio;
    }
    Ok(weights)
}

// The sum of values times weights.
pub(crate) fn weighted_sum<F: Field, EF: ExtensionField<F>>(values: &[F], weights: &[EF]) -> EF
    requires { length weights.now ≡ length values.now }
    ensures { result ≡ total EF.ring (length values.now)
        (λ i. EF.ring.mul (EF.embed (get_or values.now i F.ring.zero))
        (get_or weights.now i EF.ring.zero)) }
{
    let mut sum = EF::ZERO;
    for (i, value) in values.iter().enumerate() {
        sum = sum + EF::from_base(*value) * weights[i];
    }
    sum
}
