//! Inverses of many values at the price of one.
ghost use Rattle.std.specs.Prelude.{◌≡◌, ℕ, ◌+◌, ◌*◌, ◌<◌, ◌≤◌, length, get_or, map, IfOk};
ghost use Rattle.p3_field.specs.Ring.{Ring};
ghost use Rattle.p3_field.specs.Poly.{tabulate};
ghost use Rattle.p3_matrix.specs.Products.{product_below};

use p3_field::{Field, FieldCore, Mem, PrimeCharacteristicRing, RingCore};
use std::alloc::Global;

/// The inverses of values that aren't zero, in order, by one inversion and three products a value
/// (`p3_field::batch_multiplicative_inverse`).
pub fn batch_multiplicative_inverse<F: Field>(alloc: Global, values: &[F]) -> Mem<Vec<F>>
    requires { (i : ℕ) → i < length values.now → get_or values.now i F.ring.zero ≡ F.ring.zero → ⊥ }
    ensures { IfOk result (λ v. v.items ≡ map F.inv values.now) }
{
    scaled_inverses(alloc, values, F::ONE)
}

/// A factor over each of the values, in order, none of which is zero, by one inversion and three products a value (not
/// in Plonky3).
pub(crate) fn scaled_inverses<F: Field>(alloc: Global, values: &[F], factor: F) -> Mem<Vec<F>>
    requires { (i : ℕ) → i < length values.now → get_or values.now i F.ring.zero ≡ F.ring.zero → ⊥ }
    ensures { IfOk result (λ v. v.items ≡ map (λ x. F.ring.mul factor (F.inv x)) values.now) }
{
    let (fronts, whole) = products_of_fronts(alloc, values)?;
    let inverses = inverses_by_fronts(values, fronts, factor * whole.inverse());
    Ok(inverses)
}

// For each value the product of those before it, and the product of all.
fn products_of_fronts<F: Field>(alloc: Global, values: &[F]) -> Mem<(Vec<F>, F)>
    ensures fronts { IfOk result
        (λ p. p.0.items ≡ tabulate (length values.now) (product_below F.ring values.now)) }
    ensures whole { IfOk result (λ p. p.1 ≡ product_below F.ring values.now (length values.now)) }
{
    let mut fronts = Vec::with_capacity(alloc, values.len())?;
    let mut product = F::ONE;
    for value in values {
        fronts.push(product)?;
        product = product * *value;
    }
    Ok((fronts, product))
}

// From the last value back: a factor over the product up to a value, times the product before it, is the factor over that
// value. The quotient is the factor over the product of all.
fn inverses_by_fronts<F: Field>(values: &[F], fronts: Vec<F>, quotient_of_all: F) -> Vec<F>
    requires nonzero { (i : ℕ) → i < length values.now
        → get_or values.now i F.ring.zero ≡ F.ring.zero → ⊥ }
    requires fronts { fronts.items
        ≡ tabulate (length values.now) (product_below F.ring values.now) }
    ensures { result.items ≡ map
        (λ x. F.ring.mul (F.ring.mul quotient_of_all
        (product_below F.ring values.now (length values.now))) (F.inv x)) values.now }
{
    let mut inverses = fronts;
    let mut quotient = quotient_of_all;
    for i in (0..values.len()).rev() {
        inverses[i] = quotient * inverses[i];
        quotient = quotient * values[i];
    }
    inverses
}
