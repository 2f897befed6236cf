//! The selectors of a table's rows on its quotient domain, and one over the polynomial that vanishes on the rows.
ghost use Rattle.std.specs.Prelude.{◌≡◌, ℕ, ◌-◌, ◌*◌, ◌%◌, ◌^◌, ◌<◌, ◌≤◌, length, get_or, IfOk};
ghost use Rattle.p3_field.specs.Ring.{sub};
ghost use Rattle.p3_field.specs.Poly.{eval_poly, tabulate};
ghost use Rattle.p3_field.specs.Domain.{coset_point, point, vanishing_polynomial, first_selector, last_selector, transition_selector};
ghost use Rattle.commit_core.specs.Space.{AreDisjoint};

use commit_core::PolynomialSpace;
use p3_field::{
    Field, FieldCore, Mem, PrimeCharacteristicRing, RingCore, TwoAdicCore, TwoAdicField,
    TwoAdicMultiplicativeCoset,
};
use p3_matrix::batch_multiplicative_inverse;
use std::alloc::Global;

// The selectors of a table's rows at the points of its quotient domain, and one over the vanishing polynomial.
#[derive(Drop)]
pub(crate) struct RowSelectors<F> {
    // The selector of the first row.
    pub(crate) is_first_row: Vec<F>,
    // The selector of the last row.
    pub(crate) is_last_row: Vec<F>,
    // The selector of all rows but the last.
    pub(crate) is_transition: Vec<F>,
    // One over the vanishing polynomial at the first points, after which these repeat.
    pub(crate) inv_vanishing: Vec<F>,
}

// How many points the quotient domain has for each row. So far is the next row, and after so many points the vanishing
// polynomial's values repeat.
pub(crate) fn expansion<F: TwoAdicField>(
    trace_domain: &TwoAdicMultiplicativeCoset<F>,
    quotient_domain: &TwoAdicMultiplicativeCoset<F>,
) -> usize
    requires { trace_domain.now.log_size ≤ quotient_domain.now.log_size }
    ensures { result ≡ 2 ^ (quotient_domain.now.log_size - trace_domain.now.log_size) }
{
    quotient_domain.valid();
    1 << (quotient_domain.log_size() - trace_domain.log_size())
}

// first - minus, first * step - minus, ..
fn shifted_powers<F: Field>(alloc: Global, first: F, step: F, size: usize, minus: F) -> Mem<Vec<F>>
    ensures { IfOk result (λ v.
        v.items ≡ tabulate size (λ i. sub F.ring (coset_point F.ring first step i) minus)) }
{
    let mut values = Vec::with_capacity(alloc, size)?;
    let mut power = first;
    for _ in 0..size {
        values.push(power - minus)?;
        power = power * step;
    }
    Ok(values)
}

// The dividends over and over, each over the divisor at its place, by one inversion.
fn repeated_quotients<F: Field>(alloc: Global, dividends: &[F], divisors: &[F]) -> Mem<Vec<F>>
    requires some { 0 < length dividends.now }
    requires nonzero { (i : ℕ) → i < length divisors.now
        → get_or divisors.now i F.ring.zero ≡ F.ring.zero → ⊥ }
    ensures { IfOk result (λ v.
        v.items ≡ tabulate (length divisors.now)
        (λ i. F.ring.mul (get_or dividends.now (i % length dividends.now) F.ring.zero)
        (F.inv (get_or divisors.now i F.ring.zero)))) }
{
    let inverses = batch_multiplicative_inverse(alloc, divisors)?;
    let mut values = Vec::with_capacity(alloc, divisors.len())?;
    for (i, inverse) in inverses.iter().enumerate() {
        values.push(dividends[i % dividends.len()] * *inverse)?;
    }
    Ok(values)
}

// The values at the points of the quotient domain of the ratio to the trace domain's shift, less the same value.
fn distances<F: TwoAdicField>(
    alloc: Global,
    trace_domain: &TwoAdicMultiplicativeCoset<F>,
    quotient_domain: &TwoAdicMultiplicativeCoset<F>,
    minus: F,
) -> Mem<Vec<F>>
    ensures { IfOk result (λ v. v.items
        ≡ tabulate (2 ^ quotient_domain.now.log_size)
        (λ i. sub F.ring (coset_point F.ring
        (F.ring.mul (F.inv trace_domain.now.shift) quotient_domain.now.shift)
        (F.root quotient_domain.now.log_size) i) minus)) }
{
    trace_domain.valid();
    quotient_domain.valid();
    let ratio = trace_domain.shift_inverse() * quotient_domain.shift();
    let step = quotient_domain.subgroup_generator();
    shifted_powers(alloc, ratio, step, quotient_domain.size(), minus)
}

// The values of the vanishing polynomial at the first points of the quotient domain, after which they repeat.
fn vanishing_values<F: TwoAdicField>(
    alloc: Global,
    trace_domain: &TwoAdicMultiplicativeCoset<F>,
    quotient_domain: &TwoAdicMultiplicativeCoset<F>,
) -> Mem<Vec<F>>
    requires { trace_domain.now.log_size ≤ quotient_domain.now.log_size }
    ensures { IfOk result (λ v. v.items
        ≡ tabulate (2 ^ (quotient_domain.now.log_size - trace_domain.now.log_size))
        (λ i. eval_poly F.ring (vanishing_polynomial F.ring F.inv trace_domain.now)
        (point F.ring F.root quotient_domain.now i))) }
{
    trace_domain.valid();
    quotient_domain.valid();
    let count = expansion(trace_domain, quotient_domain);
    let mut values = Vec::with_capacity(alloc, count)?;
    for i in 0..count {
        values.push(trace_domain.vanishing_poly_at_point(quotient_domain.point(i)))?;
    }
    Ok(values)
}

// The selectors at the points of a quotient domain that is disjoint from the rows and at least as large. The vanishing
// polynomial is evaluated and inverted once for each value that it has there.
pub(crate) fn row_selectors<F: TwoAdicField>(
    alloc: Global,
    trace_domain: &TwoAdicMultiplicativeCoset<F>,
    quotient_domain: &TwoAdicMultiplicativeCoset<F>,
) -> Mem<RowSelectors<F>>
    requires larger { trace_domain.now.log_size ≤ quotient_domain.now.log_size }
    requires disjoint { AreDisjoint (2 ^ trace_domain.now.log_size)
        (point F.ring F.root trace_domain.now) (2 ^ quotient_domain.now.log_size)
        (point F.ring F.root quotient_domain.now) }
    ensures first { IfOk result (λ s. s.is_first_row.items
        ≡ tabulate (2 ^ quotient_domain.now.log_size)
        (λ i. eval_poly F.ring (first_selector F.ring F.inv trace_domain.now)
        (point F.ring F.root quotient_domain.now i))) }
    ensures last { IfOk result (λ s. s.is_last_row.items
        ≡ tabulate (2 ^ quotient_domain.now.log_size)
        (λ i. eval_poly F.ring (last_selector F.ring F.inv F.root trace_domain.now)
        (point F.ring F.root quotient_domain.now i))) }
    ensures transition { IfOk result (λ s. s.is_transition.items
        ≡ tabulate (2 ^ quotient_domain.now.log_size)
        (λ i. eval_poly F.ring (transition_selector F.ring F.inv F.root trace_domain.now)
        (point F.ring F.root quotient_domain.now i))) }
    ensures inverse { IfOk result (λ s. s.inv_vanishing.items
        ≡ tabulate (2 ^ (quotient_domain.now.log_size - trace_domain.now.log_size))
        (λ i. F.inv (eval_poly F.ring (vanishing_polynomial F.ring F.inv trace_domain.now)
        (point F.ring F.root quotient_domain.now i)))) }
{
    trace_domain.valid();
    quotient_domain.valid();
    let last_place = trace_domain.subgroup_generator().inverse();
    let vanishing = vanishing_values(alloc, trace_domain, quotient_domain)?;
    let from_first = distances(alloc, trace_domain, quotient_domain, F::ONE)?;
    let from_last = distances(alloc, trace_domain, quotient_domain, last_place)?;
    Ok(RowSelectors {
        is_first_row: repeated_quotients(alloc, &vanishing, &from_first)?,
        is_last_row: repeated_quotients(alloc, &vanishing, &from_last)?,
        is_transition: from_last,
        inv_vanishing: batch_multiplicative_inverse(alloc, &vanishing)?,
    })
}
