//! The selectors of a coset's rows.
ghost use Rattle.std.specs.Prelude.{◌≡◌, ℕ, ◌+◌, ◌*◌, ◌^◌, ◌<◌, ◌≤◌, map, length, get_or, IfOk};
ghost use Rattle.p3_field.specs.Ring.{Ring, pow, sub};
ghost use Rattle.p3_field.specs.Poly.{eval_poly, tabulate};
ghost use Rattle.p3_field.specs.Domain.{coset_point, point, vanishing_polynomial, first_selector, last_selector, transition_selector};
ghost use Rattle.commit_core.specs.Space.{IsPoint, AreDisjoint};

use p3_field::{
    ExtensionField, Field, FieldCore, Mem, PrimeCharacteristicRing, RingCore, TwoAdicCore,
    TwoAdicField, TwoAdicMultiplicativeCoset,
};
use p3_matrix::{batch_multiplicative_inverse, sum_of_powers};
use std::alloc::Global;

/// The selectors of a space's rows at one point or at several, and one over the vanishing polynomial. They aren't
/// scaled to one (`LagrangeSelectors` of `p3-commit`).
#[derive(Drop)]
pub struct LagrangeSelectors<T> {
    /// The selector of the first row.
    pub is_first_row: T,
    /// The selector of the last row.
    pub is_last_row: T,
    /// The selector of all rows but the last.
    pub is_transition: T,
    /// One over the polynomial that vanishes on all rows.
    pub inv_vanishing: T,
}

// The selectors at a point outside of the coset.
pub(crate) fn selectors_at<F: TwoAdicField, EF: ExtensionField<F>>(
    domain: &TwoAdicMultiplicativeCoset<F>,
    x: EF,
) -> LagrangeSelectors<EF>
    requires { IsPoint (2 ^ domain.now.log_size) (point F.ring F.root domain.now) EF.embed x → ⊥ }
    ensures first { result.is_first_row
        ≡ eval_poly EF.ring (map EF.embed (first_selector F.ring F.inv domain.now)) x }
    ensures last { result.is_last_row
        ≡ eval_poly EF.ring (map EF.embed (last_selector F.ring F.inv F.root domain.now)) x }
    ensures transition { result.is_transition
        ≡ eval_poly EF.ring (map EF.embed (transition_selector F.ring F.inv F.root domain.now)) x }
    ensures inverse { result.inv_vanishing
        ≡ EF.inv (eval_poly EF.ring (map EF.embed (vanishing_polynomial F.ring F.inv domain.now))
        x) }
{
    domain.valid();
    let ratio = EF::from_base(domain.shift_inverse()) * x;
    let vanishing = ratio.exp_power_of_2(domain.log_size()) - EF::ONE;
    let from_first = ratio - EF::ONE;
    let from_last = ratio - EF::from_base(domain.subgroup_generator().inverse());
    LagrangeSelectors {
        is_first_row: vanishing * from_first.inverse(),
        is_last_row: vanishing * from_last.inverse(),
        is_transition: from_last,
        inv_vanishing: vanishing.inverse(),
    }
}

// first - minus, first * step - minus, ..
fn shifted_powers<F: Field>(alloc: Global, first: F, step: F, size: usize, minus: F) -> Mem<Vec<F>>
    ensures { IfOk result (λ v.
        v.items ≡ tabulate size (λ i. sub F.ring (coset_point F.ring first step i) minus)) }
{
    let mut values = Vec::with_capacity(alloc, size)?;
    let mut power = first;
    for _ in 0..size {
        values.push(power - minus)?;
        power = power * step;
    }
    Ok(values)
}

// The quotients of two lists of values, by one inversion.
fn quotients<F: Field>(alloc: Global, dividends: &[F], divisors: &[F]) -> Mem<Vec<F>>
    requires same { length dividends.now ≡ length divisors.now }
    requires nonzero { (i : ℕ) → i < length divisors.now
        → get_or divisors.now i F.ring.zero ≡ F.ring.zero → ⊥ }
    ensures { IfOk result (λ v.
        v.items ≡ tabulate (length dividends.now)
        (λ i. F.ring.mul (get_or dividends.now i F.ring.zero)
        (F.inv (get_or divisors.now i F.ring.zero)))) }
{
    let inverses = batch_multiplicative_inverse(alloc, divisors)?;
    let mut values = Vec::with_capacity(alloc, dividends.len())?;
    for (i, dividend) in dividends.iter().enumerate() {
        values.push(*dividend * inverses[i])?;
    }
    Ok(values)
}

// The values of the vanishing polynomial on a disjoint coset.
fn vanishing_on<F: TwoAdicField>(
    alloc: Global,
    domain: &TwoAdicMultiplicativeCoset<F>,
    coset: &TwoAdicMultiplicativeCoset<F>,
) -> Mem<Vec<F>>
    requires { AreDisjoint (2 ^ domain.now.log_size) (point F.ring F.root domain.now)
        (2 ^ coset.now.log_size) (point F.ring F.root coset.now) }
    ensures { IfOk result (λ v.
        v.items ≡ tabulate (2 ^ coset.now.log_size)
        (λ i. eval_poly F.ring (vanishing_polynomial F.ring F.inv domain.now)
        (point F.ring F.root coset.now i))) }
{
    domain.valid();
    let log_size = domain.log_size();
    let size = coset.size();
    let ratio = domain.shift_inverse() * coset.shift();
    let step = coset.subgroup_generator();
    let values = shifted_powers(
        alloc,
        ratio.exp_power_of_2(log_size),
        step.exp_power_of_2(log_size),
        size,
        F::ONE,
    )?;
    Ok(values)
}

// The points of a coset over the shift of a domain, each less an element.
fn distances_on<F: TwoAdicField>(
    alloc: Global,
    domain: &TwoAdicMultiplicativeCoset<F>,
    coset: &TwoAdicMultiplicativeCoset<F>,
    minus: F,
) -> Mem<Vec<F>>
    ensures { IfOk result (λ v. v.items
        ≡ tabulate (2 ^ coset.now.log_size)
        (λ i. sub F.ring (coset_point F.ring (F.ring.mul (F.inv domain.now.shift) coset.now.shift)
        (F.root coset.now.log_size) i) minus)) }
{
    let size = coset.size();
    let ratio = domain.shift_inverse() * coset.shift();
    let step = coset.subgroup_generator();
    let values = shifted_powers(alloc, ratio, step, size, minus)?;
    Ok(values)
}

// The selectors at each point of a disjoint coset.
pub(crate) fn selectors_on<F: TwoAdicField>(
    alloc: Global,
    domain: &TwoAdicMultiplicativeCoset<F>,
    coset: &TwoAdicMultiplicativeCoset<F>,
) -> Mem<LagrangeSelectors<Vec<F>>>
    requires { AreDisjoint (2 ^ domain.now.log_size) (point F.ring F.root domain.now)
        (2 ^ coset.now.log_size) (point F.ring F.root coset.now) }
    ensures first { IfOk result
        (λ s. s.is_first_row.items
        ≡ tabulate (2 ^ coset.now.log_size)
        (λ i. eval_poly F.ring (first_selector F.ring F.inv domain.now)
        (point F.ring F.root coset.now i))) }
    ensures last { IfOk result
        (λ s. s.is_last_row.items
        ≡ tabulate (2 ^ coset.now.log_size)
        (λ i. eval_poly F.ring (last_selector F.ring F.inv F.root domain.now)
        (point F.ring F.root coset.now i))) }
    ensures transition { IfOk result (λ s. s.is_transition.items
        ≡ tabulate (2 ^ coset.now.log_size)
        (λ i. eval_poly F.ring (transition_selector F.ring F.inv F.root domain.now)
        (point F.ring F.root coset.now i))) }
    ensures inverse { IfOk result (λ s. s.inv_vanishing.items
        ≡ tabulate (2 ^ coset.now.log_size)
        (λ i. F.inv (eval_poly F.ring (vanishing_polynomial F.ring F.inv domain.now)
        (point F.ring F.root coset.now i)))) }
{
    domain.valid();
    let before_first = domain.subgroup_generator().inverse();
    let vanishing = vanishing_on(alloc, domain, coset)?;
    let from_first = distances_on(alloc, domain, coset, F::ONE)?;
    let from_last = distances_on(alloc, domain, coset, before_first)?;
    Ok(LagrangeSelectors {
        is_first_row: quotients(alloc, &vanishing, &from_first)?,
        is_last_row: quotients(alloc, &vanishing, &from_last)?,
        is_transition: from_last,
        inv_vanishing: batch_multiplicative_inverse(alloc, &vanishing)?,
    })
}

/// The first selector of a trace domain, whose shift is one, at a point u (not in Plonky3): the product of 1 +
/// u^(2^j) for j below the logarithm of the size. It needs no inverse.
pub fn first_selector_at<F: TwoAdicField, EF: ExtensionField<F>>(
    domain: &TwoAdicMultiplicativeCoset<F>,
    point: EF,
) -> EF
    requires { domain.now.shift ≡ F.ring.one }
    ensures { result ≡ eval_poly EF.ring (map EF.embed (first_selector F.ring F.inv domain.now))
        point }
{
    sum_of_powers(point, domain.log_size())
}

/// The last selector of a trace domain, whose shift is one, at a point u (not in Plonky3): with its generator h,
/// h times the first selector at h * u. It needs no inverse.
pub fn last_selector_at<F: TwoAdicField, EF: ExtensionField<F>>(
    domain: &TwoAdicMultiplicativeCoset<F>,
    point: EF,
) -> EF
    requires { domain.now.shift ≡ F.ring.one }
    ensures { result ≡ eval_poly EF.ring
        (map EF.embed (last_selector F.ring F.inv F.root domain.now)) point }
{
    domain.valid();
    let generator = EF::from_base(domain.subgroup_generator());
    generator * first_selector_at(domain, generator * point)
}
