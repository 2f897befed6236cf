//! What the definitions are fixed by: laws as the contracts of functions that compute nothing.
ghost use Rattle.std.specs.Prelude.{◌≡◌, ℕ, ◌^◌, ◌<◌, ◌≤◌, List, length, All};
ghost use Rattle.air_core.specs.Layout.{layout_of, layout_shape};
ghost use Rattle.air_core.specs.Shape.{Shape, Declaration, IsInteraction, ReadsDeclared, declared_shape};
ghost use Rattle.air_core.specs.Tree.{Tree, Interaction};
ghost use Rattle.p3_lookup.specs.Lookup.{LookupData, FitLookups, lookups_of};
ghost use Rattle.p3_lookup.specs.Packing.{packed};
ghost use Rattle.p3_lookup.specs.Trees.{lookup_trees};
ghost use Rattle.batch_constraints.specs.BatchTrees.{AreLookupsOf, layout_with};
ghost use Rattle.batch_constraints.specs.Sizing.{log_ceil, table_log_chunks, free_budget};

use p3_field::{Field, FieldCore, RingCore};

/// The lookups that an AIR's own interactions make are lookups of its table: so what `Lookups::from_air` gives may be handed
/// to each call of this crate.
pub fn own_lookups_fit<F>()
    ensures { (d : Declaration F) (is : List (Interaction F))
        → All (IsInteraction (declared_shape d)) is → AreLookupsOf d (lookups_of is) }
{}

/// A builder of a table's layout has what the constraints of its lookups read (`layout`), and where a builder has it, they
/// read nothing else (`reads`).
pub fn constraints_read_what_is_declared<F: Field>()
    ensures layout { (d : Declaration F) (ls : List (LookupData F)) → AreLookupsOf d ls
        → FitLookups (layout_shape (layout_with (layout_of d) (length ls))) ls }
    ensures reads { (s : Shape) (ls : List (LookupData F)) → FitLookups s ls
        → All (ReadsDeclared s) (lookup_trees F.ring ls) }
{}

/// Packed lookups of a table are lookups of it: so what `Lookups::pack_same_bus_with_degree` gives may be handed to each call
/// of this crate.
pub fn packed_lookups_fit<F: Field>()
    ensures { (d : Declaration F) (lookups : List (LookupData F)) (t budget : ℕ)
        → AreLookupsOf d lookups → AreLookupsOf d (packed F.ring t budget lookups) }
{}

/// Packing the lookups of a table keeps its chunk count, where the budget is at most the free one: 2^k + 1 - `is_zk`, with 2^k
/// the count for the unpacked lookups. A merged lookup that keeps to such a budget needs no more chunks, and its constraint has
/// at least the degree of each that was merged. The domain has n points, and its transition selector has degree t, which is
/// also the one that packing takes; with zero the count is that of `get_log_num_quotient_chunks` over n rows.
pub fn packing_keeps_the_chunks<F: Field>()
    ensures { (d : Declaration F) (trees : List (Tree F)) (lookups : List (LookupData F))
        (is_zk t n budget : ℕ) → is_zk ≤ 1 → 0 < n → AreLookupsOf d lookups
        → budget ≤ free_budget is_zk (table_log_chunks F.ring d trees is_zk t n lookups)
        → table_log_chunks F.ring d trees is_zk t n (packed F.ring t budget lookups)
        ≡ table_log_chunks F.ring d trees is_zk t n lookups }
{}

/// The logarithm of a count reaches it (`enough`), and no smaller one does (`least`).
pub fn a_logarithm_is_the_least()
    ensures enough { (n : ℕ) → n ≤ 2 ^ log_ceil n }
    ensures least { (n j : ℕ) → n ≤ 2 ^ j → log_ceil n ≤ j }
{}
