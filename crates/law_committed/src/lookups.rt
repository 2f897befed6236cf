//! Lookups of committed tables: laws as the contracts of functions that compute nothing.
ghost use Rattle.std.specs.Prelude.{◌≡◌, ℕ, ◌≤◌, List, [], ◌∷◌, ◌++◌, All, Ok};
ghost use Rattle.p3_field.specs.Field.{TwoAdic, Extension};
ghost use Rattle.p3_matrix.specs.Matrix.{Rows, height};
ghost use Rattle.air_core.specs.Check.{TableTraces};
ghost use Rattle.air_core.specs.Tree.{Tree};
ghost use Rattle.p3_lookup.specs.declared.terminal.LookupTerminal.{LookupTerminal};
ghost use Rattle.p3_lookup.specs.Generated.{IsGenerated, argument_over, sent_shape};
ghost use Rattle.p3_lookup.specs.Lookup.{IsLookup, LookupData};
ghost use Rattle.p3_lookup.specs.Trees.{lookup_trees};
ghost use Rattle.law_committed.specs.Committed.{CommittedTable, Holds};
ghost use Rattle.law_committed.specs.Fields.{FieldsLaws};
ghost use Rattle.law_committed.specs.Rows.{CommitsTo};

/// Where a table commits to traces and to the permutation columns and the terminal that `generate_permutation` gives for its
/// lookups and challenges, each constraint of the lookups is zero on each of its rows (`lookups`); so where the AIR's are, all
/// constraints are (`table`).
pub fn generated_columns_hold<F, E>()
    ensures lookups { (f : TwoAdic F) (e : Extension F E) (top : ℕ) (inverse : E → E)
        (t : CommittedTable F E) (traces : TableTraces F) (columns : Rows E)
        (lookups : List (LookupData F)) (terminal : LookupTerminal E) → FieldsLaws f e top inverse
        → t.log_height ≤ top → CommitsTo f e t traces columns → t.terminals ≡ terminal.0 ∷ []
        → IsGenerated (argument_over f.ring e.ring inverse e.embed traces.main traces.preprocessed
        traces.public_values lookups t.challenges) (height traces.main) (Ok (columns, terminal))
        → All (IsLookup (sent_shape traces.main traces.preprocessed traces.public_values)) lookups
        → Holds f e t (lookup_trees f.ring lookups) }
    ensures table { (f : TwoAdic F) (e : Extension F E) (top : ℕ) (inverse : E → E)
        (t : CommittedTable F E) (traces : TableTraces F) (columns : Rows E)
        (lookups : List (LookupData F)) (terminal : LookupTerminal E) (trees : List (Tree F))
        → FieldsLaws f e top inverse
        → t.log_height ≤ top → CommitsTo f e t traces columns → t.terminals ≡ terminal.0 ∷ []
        → IsGenerated (argument_over f.ring e.ring inverse e.embed traces.main traces.preprocessed
        traces.public_values lookups t.challenges) (height traces.main) (Ok (columns, terminal))
        → All (IsLookup (sent_shape traces.main traces.preprocessed traces.public_values)) lookups
        → Holds f e t trees → Holds f e t (trees ++ lookup_trees f.ring lookups) }
{}
