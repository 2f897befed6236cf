//! What an AIR declares, and the degrees of what it records.

use air_core::{BaseAir, SymbolicExpression};
use p3_field::{Field, Mem};
use std::alloc::Global;

/// What an AIR declares: whether it has no preprocessed trace; its columns, those whose next row is read, and its public values; the number and the
/// largest degree of its constraints; and whether it takes the trace for bits.
pub fn declared<F: Field, A: BaseAir<F>>(alloc: Global, air: &A) -> Mem<String> {
    let no_trace = air.preprocessed_trace(alloc)?.is_none();
    let width = air.width();
    let next = air.main_next_row_columns().len();
    let publics = air.num_public_values();
    let count = air.num_constraints();
    let degree = air.max_constraint_degree();
    let boolean = air.assumes_boolean_trace();
    format!(in alloc; "{no_trace} {width} {next} {publics} {count:?} {degree:?} {boolean}")
}

/// The largest degree of these constraints.
pub fn largest_degree<F: Field>(constraints: &[SymbolicExpression<F>]) -> usize {
    let mut degree = 0;
    for constraint in constraints {
        degree = constraint.degree_multiple().max(degree);
    }
    degree
}
