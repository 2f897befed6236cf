//! Multilinear polynomials by their values: what a challenger takes in, and values at points.
ghost use Rattle.std.specs.Prelude.{◌≡◌, ℕ, ◌+◌, ◌*◌, ◌/◌, ◌^◌, ◌<◌, List, ◌∷◌, length, map, All, IfOk, MatchOption};
ghost use Rattle.commit_rows.specs.Batches.{lists};
ghost use Rattle.plain_pcs.specs.Multilinear.{multilinear_value};
ghost use Rattle.plain_pcs.specs.PlainMultilinear.{after_values, HasValues, HaveCoordinates, IsFirstUnfit, IsFirstDifferent, multilinear_values_at as values_at_points};

use p3_challenger::CanObserve;
use p3_field::{
    BasedVectorSpace, ExtensionField, Field, FieldCore, Mem, PrimeCharacteristicRing, RingCore,
};
use std::alloc::Global;

/// Takes in how many values there are, and then each.
pub(crate) fn observe_values<F: RingCore, C: CanObserve<F>>(challenger: &mut C, values: &[F])
    ensures { challenger.new ≡ after_values F.ring C.observed values.now challenger.old }
{
    challenger.observe(&F::from_u64(values.len() as u64));
    challenger.observe_slice(values);
}

/// The first point with another number of coordinates.
pub(crate) fn first_unfit<E>(points: &[Vec<E>], num_vars: usize) -> Option<usize>
    ensures { MatchOption result (HaveCoordinates num_vars (lists points.now))
        (IsFirstUnfit num_vars (lists points.now)) }
{
    for (i, point) in points.iter().enumerate() {
        if point.len() != num_vars {
            return Some(i);
        }
    }
    None
}

/// The place of the first value that differs.
pub(crate) fn first_different<E: FieldCore>(claimed: &[E], values: &[E]) -> Option<usize>
    requires { length claimed.now ≡ length values.now }
    ensures { MatchOption result (claimed.now ≡ values.now)
        (IsFirstDifferent E.ring claimed.now values.now) }
{
    for (i, value) in values.iter().enumerate() {
        if claimed[i] != *value {
            return Some(i);
        }
    }
    None
}

// The polynomial whose first variable is set to x, by its values in the others: of each two neighbours a, b of its values
// it has a + x (b - a).
fn first_set<E: Field>(alloc: Global, values: &[E], x: E) -> Mem<Vec<E>>
    ensures count { IfOk result (λ v. length v.items ≡ length values.now / 2) }
    ensures value { IfOk result
        (λ v. (xs : List E) → length values.now ≡ 2 * 2 ^ length xs
        → multilinear_value E.ring v.items xs ≡ multilinear_value E.ring values.now (x ∷ xs)) }
{
    let count = values.len() / 2;
    let mut set = Vec::with_capacity(alloc, count)?;
    for i in 0..count {
        let low = values[2 * i];
        set.push(low + x * (values[2 * i + 1] - low))?;
    }
    Ok(set)
}

// The values over a larger field.
fn embedded<F: Field, EF: ExtensionField<F>>(alloc: Global, values: &[F]) -> Mem<Vec<EF>>
    ensures { IfOk result (λ v. v.items ≡ map EF.embed values.now) }
{
    values.iter().map(|v| EF::from_base(*v)).collect(alloc)
}

// The value at a point, a variable after another.
fn value_at<F: Field, EF: ExtensionField<F>>(
    alloc: Global,
    evaluations: &[F],
    point: &[EF],
) -> Mem<EF>
    requires { length evaluations.now ≡ 2 ^ length point.now }
    ensures { IfOk result (λ y.
        y ≡ multilinear_value EF.ring (map EF.embed evaluations.now) point.now) }
{
    let mut values = embedded::<F, EF>(alloc, evaluations)?;
    for &x in point {
        values = first_set(alloc, &values, x)?;
    }
    Ok(values[0])
}

/// The values at points.
pub(crate) fn values_at<F: Field, EF: ExtensionField<F>>(
    alloc: Global,
    evaluations: &[F],
    points: &[Vec<EF>],
) -> Mem<Vec<EF>>
    requires { (m : ℕ) × (HasValues m evaluations.now × HaveCoordinates m (lists points.now)) }
    ensures { IfOk result (λ v.
        v.items ≡ values_at_points EF.ring EF.embed evaluations.now (lists points.now)) }
{
    let mut values = Vec::with_capacity(alloc, points.len())?;
    for point in points {
        values.push(value_at(alloc, evaluations, point)?)?;
    }
    Ok(values)
}
