//! The lookups that an AIR's interactions make.
ghost use Rattle.std.specs.Prelude.{◌≡◌, ℕ, ◌+◌, ◌*◌, ◌/◌, ◌%◌, ◌<◌, ◌≤◌, List, [], length, map, get_or, All, IfOk, slice_range};
ghost use Rattle.p3_field.specs.Poly.{tabulate};
ghost use Rattle.air_core.specs.Tree.{Interaction, tuple_at};
ghost use Rattle.std.specs.Option.{option_copied};
ghost use Rattle.air_core.specs.Placed.{Placed};
ghost use Rattle.air_core.specs.Recording.{bus_of, interaction_at, sent_at};
ghost use Rattle.air_core.specs.Symbolic.{tree_at, tree_of};
ghost use Rattle.p3_lookup.specs.Lookup.{lookup_of, lookups_of};
ghost use Rattle.p3_lookup.specs.Written.{bus_of_kind, read, read_all, tree_count};

use crate::kind::Kind;
use crate::lookup::{Lookup, Lookups};
use air_core::{Air, AirLayout, BaseAir, Count, InteractionSymbolicBuilder, SymbolicExpression};
use p3_field::{Field, FieldCore, Mem, RingCore};
use std::alloc::Global;

// Copies of expressions.
pub(crate) fn copies<F: Field>(
    alloc: Global,
    xs: &[SymbolicExpression<F>],
) -> Mem<Vec<SymbolicExpression<F>>>
    ensures { IfOk result (λ v. v.items ≡ xs.now) }
{
    let mut copies = Vec::with_capacity(alloc, xs.len())?;
    for x in xs {
        copies.push(x.try_clone(alloc)?)?;
    }
    Ok(copies)
}

// The fields as this many tuples.
fn tuples_of<F: Field>(
    alloc: Global,
    fields: &[SymbolicExpression<F>],
    count: usize,
) -> Mem<Vec<Vec<SymbolicExpression<F>>>>
    requires counted { 0 < count }
    ensures { IfOk result (λ v. map (λ t. t.items) v.items
        ≡ tabulate count (λ k. slice_range fields.now (k * (length fields.now / count))
        (k * (length fields.now / count) + length fields.now / count))) }
{
    let width = fields.len() / count;
    let mut tuples = Vec::with_capacity(alloc, count)?;
    for k in 0..count {
        let start = k * width;
        tuples.push(copies(alloc, &fields[start..start + width])?)?;
    }
    Ok(tuples)
}

// Each expression with the bound at its place.
fn counts_of<F: Field>(
    alloc: Global,
    values: &[SymbolicExpression<F>],
    bounds: &[u32],
) -> Mem<Vec<Count<SymbolicExpression<F>>>>
    requires bounded { length bounds.now ≡ length values.now }
    ensures count { IfOk result (λ v. length v.items ≡ length values.now) }
    ensures values { IfOk result (λ v. map (λ c. c.value) v.items ≡ values.now) }
    ensures bounds { IfOk result (λ v. map (λ c. c.bound) v.items ≡ bounds.now) }
{
    let mut counts = Vec::with_capacity(alloc, values.len())?;
    for i in 0..values.len() {
        counts.push(Count {
            value: values[i].try_clone(alloc)?,
            bound: bounds[i],
        })?;
    }
    Ok(counts)
}

// The kind of a bus of this name, or of none.
fn kind_of(alloc: Global, name: Option<&str>) -> Mem<Kind>
    ensures { IfOk result (λ k. bus_of_kind k ≡ bus_of (option_copied name.entry)) }
{
    match name {
        Some(name) => Ok(Kind::Global(String::from_str(alloc, name)?)),
        None => Ok(Kind::Local),
    }
}

// The lookup of a recorded interaction.
fn lookup_at<F: Field>(
    alloc: Global,
    builder: &InteractionSymbolicBuilder<F>,
    index: usize,
) -> Mem<Lookup<F>>
    requires within { index < length builder.now.interactions }
    requires counted { (d : Placed) → 0 < length (get_or builder.now.interactions index d).counts }
    ensures { IfOk result (λ l. (d : Placed)
        → read l ≡ lookup_of (interaction_at builder.now.nodes
        (get_or builder.now.interactions index d))) }
{
    let fields = builder.interaction_fields(alloc, index)?;
    let values = builder.interaction_counts(alloc, index)?;
    let bounds = builder.interaction_bounds(alloc, index)?;
    let kind = kind_of(alloc, builder.interaction_bus(index))?;
    let elements = tuples_of(alloc, &fields, values.len())?;
    let multiplicities = counts_of(alloc, &values, &bounds)?;
    Ok(Lookup::new(kind, elements, multiplicities))
}

// The lookups of all recorded interactions.
fn lookups_in<F: Field>(
    alloc: Global,
    builder: &InteractionSymbolicBuilder<F>,
) -> Mem<Vec<Lookup<F>>>
    ensures { IfOk result (λ v.
        read_all v.items ≡ lookups_of (sent_at builder.now.nodes builder.now.interactions)) }
{
    let mut lookups = Vec::new(alloc);
    for index in 0..builder.num_interactions() {
        lookups.push(lookup_at(alloc, builder, index)?)?;
    }
    Ok(lookups)
}

impl<F: Field> Lookups<F> {
    /// The lookups of an AIR: one for each of its interactions, in order.
    pub fn from_air<A: Air<F>>(alloc: Global, air: &A) -> Mem<Self>
        ensures { IfOk result (λ l. read_all l ≡ lookups_of (A.interactions air.now)) }
    {
        let mut builder = InteractionSymbolicBuilder::new(alloc, AirLayout::from_air(air))?;
        air.eval(&mut builder)?;
        let lookups = lookups_in(alloc, &builder)?;
        Ok(Lookups::new(lookups))
    }
}
