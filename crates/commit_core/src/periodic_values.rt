//! Values of periodic columns' polynomials.
ghost use Rattle.std.specs.Prelude.{◌≡◌, ◌≢◌, ℕ, ◌+◌, ◌*◌, ◌/◌, ◌%◌, ◌^◌, ◌<◌, ◌≤◌, length, map, Some, IfOk};
ghost use Rattle.std.specs.Ordering.{nat_cmp};
ghost use Rattle.std.specs.BTreeMap.{get};
ghost use Rattle.p3_field.specs.Ring.{Ring, pow};
ghost use Rattle.p3_field.specs.Domain.{point};
ghost use Rattle.commit_core.specs.Periodic.{IsPeriod, IsPeriodicAt, EachFrom};
ghost use Rattle.commit_core.specs.Weights.{AreWeights, AreKnown};

use crate::interpolation::{interpolated_at, weighted_sum, weights_at};
use crate::periodic::PeriodicColumns;
use p3_field::{
    ExtensionField, FieldCore, Mem, PrimeCharacteristicRing, RingCore, TwoAdicCore, TwoAdicField,
    TwoAdicMultiplicativeCoset,
};
use p3_matrix::log2_strict_usize;
use std::alloc::Global;
use std::collections::BTreeMap;

// The value at x of a column's polynomial: that of the period's, on the coset of the points' powers, at x to the same
// power, which is the number of times that the period is laid over the domain.
pub(crate) fn periodic_value<F: TwoAdicField, EF: ExtensionField<F>>(
    domain: &TwoAdicMultiplicativeCoset<F>,
    column: &[F],
    x: EF,
) -> EF
    requires { IsPeriod (2 ^ domain.now.log_size) (length column.now) }
    ensures { IsPeriodicAt F.ring EF.ring EF.embed (2 ^ domain.now.log_size)
        (point F.ring F.root domain.now) x column.now result }
{
    domain.valid();
    let log_period = log2_strict_usize(column.len());
    let folds = domain.log_size() - log_period;
    let shift = domain.shift().exp_power_of_2(folds);
    let period = TwoAdicMultiplicativeCoset::new(shift, log_period).unwrap();
    interpolated_at(&period, column, x.exp_power_of_2(folds))
}

// The weights of a period's values in the value at x of a column's polynomial: one list for all columns of this period.
fn period_weights<F: TwoAdicField, EF: ExtensionField<F>>(
    alloc: Global,
    domain: &TwoAdicMultiplicativeCoset<F>,
    period: usize,
    x: EF,
) -> Mem<Vec<EF>>
    requires { IsPeriod (2 ^ domain.now.log_size) period }
    ensures { IfOk result (λ v.
        AreWeights F.ring EF.ring EF.embed (2 ^ domain.now.log_size)
        (point F.ring F.root domain.now) x period v.items) }
{
    domain.valid();
    let log_period = log2_strict_usize(period);
    let folds = domain.log_size() - log_period;
    let shift = domain.shift().exp_power_of_2(folds);
    let coset = TwoAdicMultiplicativeCoset::new(shift, log_period).unwrap();
    let weights = weights_at(alloc, &coset, x.exp_power_of_2(folds))?;
    Ok(weights)
}

// The value at x of a column's polynomial, by the weights of its period, which are found where they aren't known yet.
fn value_by_weights<F: TwoAdicField, EF: ExtensionField<F>>(
    alloc: Global,
    domain: &TwoAdicMultiplicativeCoset<F>,
    column: &[F],
    x: EF,
    weights: &mut BTreeMap<usize, Vec<EF>>,
) -> Mem<EF>
    requires period { IsPeriod (2 ^ domain.now.log_size) (length column.now) }
    requires known { AreKnown F.ring EF.ring EF.embed (2 ^ domain.now.log_size)
        (point F.ring F.root domain.now) x (get nat_cmp weights.old) (λ v. v.items) }
    ensures value { IfOk result
        (IsPeriodicAt F.ring EF.ring EF.embed (2 ^ domain.now.log_size)
        (point F.ring F.root domain.now) x column.now) }
    ensures known { IfOk result
        (λ _. AreKnown F.ring EF.ring EF.embed (2 ^ domain.now.log_size)
        (point F.ring F.root domain.now) x (get nat_cmp weights.new) (λ v. v.items)) }
{
    let period = column.len();
    if let Some(known) = weights.get(&period) {
        let ready = known.as_slice();
        let found = weighted_sum(column, ready);
        return Ok(found);
    }
    let made = period_weights(alloc, domain, period, x)?;
    let fresh = made.as_slice();
    let value = weighted_sum(column, fresh);
    add_weights(weights, period, made)?;
    Ok(value)
}

// Puts the weights of one more period, or other ones in the place of those that were there.
fn add_weights<EF: RingCore>(
    weights: &mut BTreeMap<usize, Vec<EF>>,
    period: usize,
    made: Vec<EF>,
) -> Mem<()>
    ensures here { IfOk result (λ _. get nat_cmp weights.new period ≡ Some made) }
    ensures others { IfOk result
        (λ _. (n : ℕ) → n ≢ period → get nat_cmp weights.new n ≡ get nat_cmp weights.old n) }
{
    weights.insert(period, made)?;
    Ok(())
}

// The values of all columns, in order. Each period is interpolated once.
pub(crate) fn periodic_values<F: TwoAdicField, EF: ExtensionField<F>>(
    alloc: Global,
    domain: &TwoAdicMultiplicativeCoset<F>,
    columns: PeriodicColumns<'_, F>,
    x: EF,
) -> Mem<Vec<EF>>
    requires { columns.height ≡ 2 ^ domain.now.log_size }
    ensures { IfOk result (λ v.
        EachFrom (map (λ c. c.items) columns.entry.columns.now) v.items
        (IsPeriodicAt F.ring EF.ring EF.embed (2 ^ domain.now.log_size)
        (point F.ring F.root domain.now) x)) }
{
    let mut weights = BTreeMap::new(alloc);
    let mut values = Vec::with_capacity(alloc, columns.len())?;
    for column in columns.as_slice() {
        let value = value_by_weights(alloc, domain, column, x, &mut weights)?;
        values.push(value)?;
    }
    Ok(values)
}
