//! Calls of domains.

use crate::periodic::periodic_values;
use crate::reading::{Coset, coset_of, number, values_of};
use crate::writing::{listed, push_word};
use commit_core::{PolynomialSpace, are_disjoint, first_selector_at, last_selector_at, rows_from};
use commit_rows::greatest_height;
use p3_field::{
    BabyBear, ExtensionField, FieldCore, Mem, PrimeCore64, RingCore, TwoAdicField,
    TwoAdicMultiplicativeCoset,
};
use p3_matrix::{RowMajorMatrix, is_power_of_two};
use std::alloc::Global;

/// Calls of the coset that the first list is. The second begins with a point of this field, the number of points, another
/// coset, or the number of parts.
pub fn coset<E: ExtensionField<BabyBear>>(
    alloc: Global,
    call: &str,
    lists: &[Vec<usize>],
) -> Mem<String> {
    let [first, numbers, others @ ..] = lists else {
        return String::from_str(alloc, "bad case");
    };
    let Some(domain) = coset_of(first) else {
        return String::from_str(alloc, "none");
    };
    let point = E::from_u64(number(numbers, 0) as u64);
    match call {
        "at" => listed(alloc, &at_point(alloc, &domain, point, others)?),
        "selectors" => listed(alloc, &selectors_at(alloc, &domain, point)?),
        "selectors_on" => listed(alloc, &selectors_on(alloc, &domain, numbers)?),
        "offered" => offered(alloc, &domain, number(numbers, 0)),
        "split" => listed(alloc, &split(alloc, &domain, numbers)?),
        "periodic" => listed(alloc, &periodic_values(alloc, &domain, point, others)?),
        _ => String::from_str(alloc, "bad case"),
    }
}

// The size, the transition's degree, the first point, the vanishing polynomial at x, the point after x, and for each list of as many
// values as points the interpolant at x.
fn at_point<E: ExtensionField<BabyBear>>(
    alloc: Global,
    domain: &Coset,
    x: E,
    lists: &[Vec<usize>],
) -> Mem<Vec<E>> {
    let mut values = vec![in alloc;
        E::from_u64(PolynomialSpace::size(domain) as u64),
        E::from_u64(domain.transition_degree_multiple() as u64),
        E::from_base(domain.first_point()),
        domain.vanishing_poly_at_point(x),
    ]?;
    if let Some(next) = domain.next_point(x) {
        values.push(next)?;
    }
    for list in lists {
        let column = values_of(alloc, list)?;
        let column = column.as_slice();
        if column.len() == domain.size() {
            values.push(domain.evaluate_polynomial_at(column, x))?;
        }
    }
    Ok(values)
}

// The selectors at a point outside of a domain, one over the vanishing polynomial, and for a trace domain the first and the last
// selector by the calls that need no inverse.
fn selectors_at<F: TwoAdicField, E: ExtensionField<F>>(
    alloc: Global,
    domain: &TwoAdicMultiplicativeCoset<F>,
    x: E,
) -> Mem<Vec<E>> {
    if domain.vanishing_poly_at_point(x).is_zero() {
        return Ok(Vec::new(alloc));
    }
    let at = domain.selectors_at_point(x);
    let mut values = vec![in alloc;
        at.is_first_row,
        at.is_last_row,
        at.is_transition,
        at.inv_vanishing,
    ]?;
    if domain.shift() == F::ONE {
        values.push(first_selector_at(domain, x))?;
        values.push(last_selector_at(domain, x))?;
    }
    Ok(values)
}

// The same on a disjoint coset, selector by selector.
fn selectors_on(alloc: Global, domain: &Coset, numbers: &[usize]) -> Mem<Vec<BabyBear>> {
    let mut values = Vec::new(alloc);
    let Some(other) = coset_of(numbers) else {
        return Ok(values);
    };
    if are_disjoint(domain, &other) {
        let on = domain.selectors_on_coset(alloc, other)?;
        values.extend_from_slice(&on.is_first_row)?;
        values.extend_from_slice(&on.is_last_row)?;
        values.extend_from_slice(&on.is_transition)?;
        values.extend_from_slice(&on.inv_vanishing)?;
    }
    Ok(values)
}

// The domain of at least so many points that is offered, whether both calls offer it, and whether it is disjoint from this
// one, and this one from itself.
fn offered(alloc: Global, domain: &Coset, min_size: usize) -> Mem<String> {
    let Some(offered) = domain.try_create_disjoint_domain(min_size) else {
        return String::from_str(alloc, "none");
    };
    let again = domain.create_disjoint_domain(min_size);
    let (shift, log_size) = (offered.shift().as_canonical_u64(), offered.log_size());
    let disjoint = are_disjoint(domain, &offered);
    let from_itself = are_disjoint(domain, domain);
    format!(in alloc;
        "{shift} {log_size} {} {disjoint} {from_itself}",
        again == offered
    )
}

// The parts of a domain, so many as the first number says, of a column of the values that the others are: of each part the
// shift, the logarithm of the size, and the rows.
fn split(alloc: Global, domain: &Coset, numbers: &[usize]) -> Mem<Vec<BabyBear>> {
    let mut values = Vec::new(alloc);
    let [count, cells @ ..] = numbers else {
        return Ok(values);
    };
    let rows = RowMajorMatrix::new_col(values_of(alloc, cells)?);
    let (count, size) = (*count, domain.size());
    if !is_power_of_two(count) || count > size || rows.height() != size {
        return Ok(values);
    }
    let parts = domain.split_evals(alloc, count, rows)?;
    for (place, part) in domain.split_domains(alloc, count)?.iter().enumerate() {
        values.push(part.shift())?;
        values.push(BabyBear::from_u64(part.log_size() as u64))?;
        if let Some(rows) = parts.get(place) {
            values.extend_from_slice(rows.as_slice())?;
        }
    }
    Ok(values)
}

/// The rows of a column from a first one on, with a stride, and the greatest height of both columns.
pub fn every(alloc: Global, lists: &[Vec<usize>]) -> Mem<String> {
    let [numbers, cells] = lists else {
        return String::from_str(alloc, "bad case");
    };
    let (first, stride) = (number(numbers, 0), number(numbers, 1));
    let rows = RowMajorMatrix::new_col(values_of::<BabyBear>(alloc, cells)?);
    if first >= stride || rows.height() % stride != 0 {
        return String::from_str(alloc, "bad case");
    }
    let part = rows_from(alloc, &rows, first, stride)?;
    let mut out = listed(alloc, part.as_slice())?;
    let most = greatest_height(&[part, rows]);
    push_word(&mut out, format_args!("{most:?}"))?;
    Ok(out)
}
