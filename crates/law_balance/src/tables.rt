//! What committed tables that hold send: laws as the contracts of functions that compute nothing.
ghost use Rattle.std.specs.Prelude.{◌≡◌, ℕ, ◌<◌, ◌≤◌, ◌++◌, List, length, flat_map, All, Option, None, option_to_list};
ghost use Rattle.std.specs.Prelude.{slice_index_or as get_or};
ghost use Rattle.p3_field.specs.Field.{TwoAdic, Extension};
ghost use Rattle.air_core.specs.Shape.{Shape};
ghost use Rattle.air_core.specs.Tree.{Tree};
ghost use Rattle.p3_lookup.specs.Lookup.{LookupData, ReadsSent};
ghost use Rattle.p3_lookup.specs.Messages.{HasBases};
ghost use Rattle.p3_lookup.specs.Term.{sum_of};
ghost use Rattle.p3_lookup.specs.Trees.{lookup_trees};
ghost use Rattle.stark_balance.specs.Batch.{IsVanishingTable};
ghost use Rattle.law_committed.specs.Committed.{CommittedTable, Holds};
ghost use Rattle.law_committed.specs.Fields.{FieldsLaws};
ghost use Rattle.law_soundness.specs.CommittedBatch.{permutation_count};
ghost use Rattle.law_balance.specs.CommittedRows.{committed_sender};
ghost use Rattle.law_balance.specs.CommittedSenders.{IsHoldingTable, CommittedBalance};

use p3_field::{
    ExtensionField, Field, FieldCore, PrimeCharacteristicRing, RingCore, TwoAdicCore, TwoAdicField,
};

/// Where a committed table holds with the constraints of its lookups among its own, has the bases of their buses as challenges,
/// and has a terminal exactly where it has lookups, the constraints of its lookups vanish on the rows of what it sends (not in
/// Plonky3). These rows are of the base field: the values of the committed polynomials at the rows' points.
pub fn committed_tables_vanish<F, E>()
    ensures { (f : TwoAdic F) (e : Extension F E) (top : ℕ) (inverse : E → E)
        (t : CommittedTable F E) (lookups : List (LookupData F)) (bus : ℕ → ℕ) (base : ℕ → E)
        (beta : E) (shape : Shape) (trees : List (Tree F)) (terminal : Option E)
        → FieldsLaws f e top inverse → t.log_height ≤ top
        → HasBases e.ring.zero base beta bus (length lookups) t.challenges
        → All (ReadsSent shape) lookups
        → Holds f e t (trees ++ lookup_trees f.ring lookups) → t.terminals ≡ option_to_list terminal
        → length t.terminals ≡ permutation_count (length lookups)
        → IsVanishingTable f.ring e.ring inverse e.embed base beta
        (committed_sender f t lookups bus) terminal }
{}

/// Where the tables of a batch hold, as they are committed to, with the constraints of their lookups among their own and with
/// the challenges of a drawn pair, and the terminals that are there sum to zero, nothing is left over on any bus of what they
/// send row by row, or the pair is unlucky (not in Plonky3).
pub fn committed_batches_balance<F: TwoAdicField, E: ExtensionField<F>>()
    ensures { let f : TwoAdic
        F = record { ring = F.ring; inv = F.inv; root = F.root; generator = F.GENERATOR } in
        (e : Extension F E) (top : ℕ) (inverse : E → E) (table : ℕ → CommittedTable F E)
        (lookups : List (List (LookupData F))) (terminals : List (Option E)) (alpha beta : E)
        → FieldsLaws f e top inverse → length terminals ≡ length lookups
        → ((i : ℕ) → i < length lookups
        → IsHoldingTable f e top lookups alpha beta i (table i) (get_or terminals i None))
        → sum_of e.ring (flat_map option_to_list terminals) ≡ e.ring.zero
        → CommittedBalance f F.eq e inverse table lookups alpha beta }
{}
