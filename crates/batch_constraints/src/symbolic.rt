//! The constraints of a table with lookups, recorded.
ghost use Rattle.std.specs.Prelude.{◌≡◌, ℕ, ◌+◌, ◌*◌, ◌^◌, ◌<◌, length, map, IfOk};
ghost use Rattle.air_core.specs.Layout.{layout_of};
ghost use Rattle.air_core.specs.Recording.{asserted_at};
ghost use Rattle.air_core.specs.Symbolic.{tree_of};
ghost use Rattle.p3_lookup.specs.Trees.{lookup_trees};
ghost use Rattle.p3_lookup.specs.Written.{read, read_all};
ghost use Rattle.batch_constraints.specs.BatchTrees.{batch_trees, layout_with, AreLookupsOf, places_of};

use air_core::{
    Air, AirLayout, BaseAir, ConstraintLayout, InteractionSymbolicBuilder, SymbolicExpression,
};
use p3_field::{Field, FieldCore, Mem, RingCore};
use p3_lookup::{Lookup, LookupProtocol};
use std::alloc::Global;

// The layout of a table with this many lookups.
fn with_lookups<LG: LookupProtocol>(layout: AirLayout, count: usize, gadget: &LG) -> AirLayout
    requires { count < 2 ^ 63 }
    ensures { result ≡ layout_with layout count }
{
    let (width, terminals) = if count == 0 { (0, 0) } else { (count + 1, 1) };
    AirLayout {
        permutation_width: width,
        num_permutation_challenges: count * gadget.num_challenges(),
        num_permutation_values: terminals,
        ..layout
    }
}

// All constraints of a table, recorded.
pub(crate) fn recorded<F: Field, A: Air<F>, LG: LookupProtocol>(
    alloc: Global,
    air: &A,
    layout: AirLayout,
    contexts: &[Lookup<F>],
    lookup_gadget: &LG,
) -> Mem<InteractionSymbolicBuilder<F>>
    requires layout { layout ≡ layout_of (A.declaration air.now) }
    requires lookups { AreLookupsOf (A.declaration air.now) (read_all contexts.now) }
    ensures { IfOk result (λ b.
        asserted_at b.nodes b.asserted
        ≡ batch_trees F.ring (A.trees air.now) (read_all contexts.now)) }
{
    let layout = with_lookups(layout, contexts.len(), lookup_gadget);
    let mut builder = InteractionSymbolicBuilder::new(alloc, layout)?;
    lookup_gadget.eval_air_and_lookups(air, &mut builder, contexts)?;
    Ok(builder)
}

/// The constraints of a table: those of its AIR, over the base field, and those of its lookups, over the extension, each in
/// the order in which they are asserted (`get_symbolic_constraints` of `p3-batch-stark`).
///
/// The layout is the AIR's, without lookups. The lookups read constants and those public values, main and preprocessed
/// cells that the AIR declares, and each has as many counts as tuples.
pub fn get_symbolic_constraints<F: Field, A: Air<F>, LG: LookupProtocol>(
    alloc: Global,
    air: &A,
    layout: AirLayout,
    contexts: &[Lookup<F>],
    lookup_gadget: &LG,
) -> Mem<(Vec<SymbolicExpression<F>>, Vec<SymbolicExpression<F>>)>
    requires layout { layout ≡ layout_of (A.declaration air.now) }
    requires lookups { AreLookupsOf (A.declaration air.now) (read_all contexts.now) }
    ensures base { IfOk result (λ p. map tree_of p.0.items ≡ A.trees air.now) }
    ensures extension { IfOk result
        (λ p. map tree_of p.1.items ≡ lookup_trees F.ring (read_all contexts.now)) }
{
    let builder = recorded(alloc, air, layout, contexts, lookup_gadget)?;
    let base = builder.base_constraints(alloc)?;
    let extension = builder.extension_constraints(alloc)?;
    Ok((base, extension))
}

/// The places of a table's constraints among all, in the order in which they are asserted: those of the AIR, over the base
/// field, come first, and those of the lookups, over the extension, after them (`get_constraint_layout` of
/// `p3-batch-stark`). The conditions are those of `get_symbolic_constraints`.
pub fn get_constraint_layout<F: Field, A: Air<F>, LG: LookupProtocol>(
    alloc: Global,
    air: &A,
    layout: AirLayout,
    contexts: &[Lookup<F>],
    lookup_gadget: &LG,
) -> Mem<ConstraintLayout>
    requires layout { layout ≡ layout_of (A.declaration air.now) }
    requires lookups { AreLookupsOf (A.declaration air.now) (read_all contexts.now) }
    ensures { IfOk result (λ l.
        l ≡ places_of (length (A.trees air.now))
        (length (lookup_trees F.ring (read_all contexts.now)))) }
{
    let builder = recorded(alloc, air, layout, contexts, lookup_gadget)?;
    builder.constraint_layout(alloc)
}
