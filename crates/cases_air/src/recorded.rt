//! What a recording builder has recorded.
ghost use Rattle.std.specs.Prelude.{◌≡◌, ◌<◌};

use crate::printing::{push_values, push_word};
use crate::reading::Case;
use crate::sending::degree_over;
use air_core::{InteractionSymbolicBuilder, SymbolicExpression};
use air_tables::SwapAir;
use p3_field::{BabyBear, FieldCore, Mem, RingCore};
use std::alloc::Global;

/// Appends the answer to a call of a recording builder.
pub fn push_recorded(
    alloc: Global,
    out: &mut String,
    builder: &InteractionSymbolicBuilder<BabyBear>,
    case: &Case,
) -> Mem<()> {
    match case.call {
        "constraint_layout" => push_places(alloc, out, builder),
        "decompose_alpha" => push_powers(
            alloc,
            out,
            builder,
            BabyBear::from_u64(case.at[0] as u64),
        ),
        "largest_degree_multiple" => push_word(out, builder.largest_degree_multiple(case.at[0])?),
        "largest_poly_degree" => push_word(out, builder.largest_poly_degree(case.at[0], &[])?),
        "interactions_read_declared" => {
            push_word(out, builder.interactions_read_declared(alloc, &SwapAir)?)
        }
        "interactions" => push_interactions(alloc, out, builder),
        _ => {
            push_measures(alloc, out, &builder.base_constraints(alloc)?, case)?;
            push_word(out, "|")?;
            push_measures(alloc, out, &builder.extension_constraints(alloc)?, case)
        }
    }
}

// The places of the constraints over the base field, and of those over the extension.
fn push_places(
    alloc: Global,
    out: &mut String,
    builder: &InteractionSymbolicBuilder<BabyBear>,
) -> Mem<()> {
    let places = builder.constraint_layout(alloc)?;
    let base = places.base_indices.as_slice();
    let extension = places.ext_indices.as_slice();
    push_word(out, format_args!("{base:?} {extension:?}"))
}

// How many constraints there are, and the power of a challenge of each, first of those over the base field.
fn push_powers(
    alloc: Global,
    out: &mut String,
    builder: &InteractionSymbolicBuilder<BabyBear>,
    alpha: BabyBear,
) -> Mem<()> {
    let places = builder.constraint_layout(alloc)?;
    let (base, extension) = places.decompose_alpha(alloc, alpha)?;
    push_word(out, format_args!("{} |", places.total_constraints()))?;
    push_values(alloc, out, &base)?;
    push_word(out, "|")?;
    push_values(alloc, out, &extension)
}

// The bus of each interaction, how many fields and counts it has, and the counts' bounds.
fn push_interactions(
    alloc: Global,
    out: &mut String,
    builder: &InteractionSymbolicBuilder<BabyBear>,
) -> Mem<()> {
    for index in 0..builder.num_interactions() {
        let bus = builder.interaction_bus(index);
        let fields = builder.interaction_fields(alloc, index)?.len();
        let counts = builder.interaction_counts(alloc, index)?.len();
        let bounds = builder.interaction_bounds(alloc, index)?;
        let bounds = bounds.as_slice();
        push_word(out, format_args!("{bus:?} {fields} {counts} {bounds:?}"))?;
    }
    Ok(())
}

// The answers to a call of each of some constraints.
fn push_measures(
    alloc: Global,
    out: &mut String,
    constraints: &[SymbolicExpression<BabyBear>],
    case: &Case,
) -> Mem<()> {
    for constraint in constraints {
        push_measure(alloc, out, constraint, case)?;
    }
    Ok(())
}

// The answer to a call of a constraint.
fn push_measure(
    alloc: Global,
    out: &mut String,
    constraint: &SymbolicExpression<BabyBear>,
    case: &Case,
) -> Mem<()> {
    let n = case.at[0];
    match case.call {
        "nodes" => push_word(out, constraint.nodes().len()),
        "try_clone" => push_word(out, constraint.try_clone(alloc)?.nodes().len()),
        "degree_multiple" => push_word(out, constraint.degree_multiple()),
        "degree_multiple_with_transition" => {
            push_word(out, constraint.degree_multiple_with_transition(n))
        }
        "poly_degree" => push_word(out, degree_over(alloc, constraint, n)?),
        "reads_declared" => push_word(out, constraint.reads_declared(&SwapAir)),
        "reads_sendable" => push_word(out, constraint.reads_sendable(&SwapAir)),
        _ => push_word(out, "bad case"),
    }
}
