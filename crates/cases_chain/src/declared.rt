//! What the AIR declares and records.

use air_core::{Air, AirLayout, BaseAir, InteractionSymbolicBuilder};
use chain_air::ChainAir;
use p3_field::{BabyBear, Mem};
use std::alloc::Global;

/// What the AIR declares: whether it has no preprocessed trace; its columns, those whose next row is read, and its public values; the number and the
/// largest degree of its constraints; and whether it takes the trace for bits.
pub fn declared(alloc: Global) -> Mem<String> {
    let air = ChainAir::new();
    let no_trace = BaseAir::<BabyBear>::preprocessed_trace(&air, alloc)?.is_none();
    let width = BaseAir::<BabyBear>::width(&air);
    let next = BaseAir::<BabyBear>::main_next_row_columns(&air).len();
    let publics = BaseAir::<BabyBear>::num_public_values(&air);
    let count = BaseAir::<BabyBear>::num_constraints(&air);
    let degree = BaseAir::<BabyBear>::max_constraint_degree(&air);
    let boolean = BaseAir::<BabyBear>::assumes_boolean_trace(&air);
    format!(in alloc; "{no_trace} {width} {next} {publics} {count:?} {degree:?} {boolean}")
}

/// The first and the last of the columns whose next row is read.
pub fn next_columns(alloc: Global) -> Mem<String> {
    let air = ChainAir::new();
    let next = BaseAir::<BabyBear>::main_next_row_columns(&air);
    format!(in alloc; "{:?} {:?}", next.first(), next.last())
}

/// How many constraints and interactions the AIR records, and the largest degree.
pub fn recorded(alloc: Global) -> Mem<String> {
    let air = ChainAir::new();
    let layout = AirLayout::from_air::<BabyBear, ChainAir>(&air);
    let mut builder = InteractionSymbolicBuilder::<BabyBear>::new(alloc, layout)?;
    air.eval(&mut builder)?;
    let constraints = builder.base_constraints(alloc)?;
    let mut degree = 0;
    for constraint in &constraints {
        degree = constraint.degree_multiple().max(degree);
    }
    let (count, interactions) = (constraints.len(), builder.num_interactions());
    format!(in alloc; "{count} {interactions} {degree}")
}
