//! What the definitions are fixed by: laws as the contracts of functions that compute nothing.
ghost use Rattle.std.specs.Prelude.{◌≡◌, ◌<◌, ℕ, List, length, All, Option};
ghost use Rattle.p3_field.specs.Checks.{AreSingle};
ghost use Rattle.p3_field.specs.Domain.{CosetData};
ghost use Rattle.p3_field.specs.Field.{TwoAdic, Extension};
ghost use Rattle.air_core.specs.Shape.{Declaration, width_of};
ghost use Rattle.air_core.specs.Tree.{Tree};
ghost use Rattle.p3_lookup.specs.Lookup.{LookupData};
ghost use Rattle.batch_constraints.specs.BatchTrees.{AreLookupsOf};
ghost use Rattle.verifier_identity.specs.Identity.{OpenedTable, HasDeclaredLengths, OpensWhatIsRead, identity_checks};
ghost use Rattle.p3_field.specs.Ring.{Ring};
ghost use Rattle.batch_statement.specs.Proof.{OpenedWithLookups};
ghost use Rattle.batch_statement.specs.Statement.{Statement};
ghost use Rattle.verifier_identity.specs.TableIdentity.{identity_at, terminal_check};

/// Values of the declared lengths are all that a table reads, where next columns are declared of columns that are there, as
/// each AIR's are.
pub fn declared_lengths_are_enough<F, E>()
    ensures { (d : Declaration F) (lookups : List (LookupData F)) (o : OpenedTable F E)
        → All (λ c. c < d.width) d.main_next
        → All (λ c. c < width_of d.preprocessed) d.preprocessed_next
        → AreLookupsOf d lookups → HasDeclaredLengths d (length lookups) o
        → OpensWhatIsRead d lookups o }
{}

/// Each check of a table's identity has exactly one refusal where it fails, so there is one verdict on it.
pub fn there_is_one_verdict<F, E, PcsErr>()
    ensures { (f : TwoAdic F) (e : Extension F E) (index : Option ℕ) (d : CosetData F)
        (alpha zeta : E) (o : OpenedTable F E) (trees : List (Tree F)) (quotient : E)
        → AreSingle (identity_checks f e {R = PcsErr} index d alpha zeta o trees quotient) }
{}

/// Each check of the tables' identities, and that of the terminals, has exactly one refusal where it fails, so there is one
/// verdict on them.
pub fn identities_have_one_verdict<F, E, Com, R>()
    ensures identities { (f : TwoAdic F) (e : Extension F E) (masks : ℕ) (s : Statement F Com)
        (instances : List (OpenedWithLookups E)) (terminals : List (Option E))
        (degree_bits : List ℕ)
        (challenges : List (List E)) (domains : List (List (CosetData F))) (alpha zeta : E) (i : ℕ)
        → AreSingle (identity_at {R = R} f e masks s instances terminals degree_bits challenges
        domains alpha zeta i) }
    ensures terminals { (r : Ring E) (terminals : List (Option E))
        → AreSingle (terminal_check {R = R} r terminals) }
{}
