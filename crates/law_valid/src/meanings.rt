//! What a valid statement with traces promises: laws as the contracts of functions that compute nothing.
ghost use Rattle.std.specs.Prelude.{◌≡◌, ℕ, ◌+◌, ◌*◌, ◌^◌, ◌<◌, Bool, List, [], ◌∷◌, length, All, Ok};
ghost use Rattle.p3_field.specs.Domain.{CosetData};
ghost use Rattle.p3_matrix.specs.Matrix.{Rows, height};
ghost use Rattle.air_core.specs.Shape.{ReadsDeclared, declared_shape};
ghost use Rattle.p3_lookup.specs.declared.terminal.LookupTerminal.{LookupTerminal};
ghost use Rattle.p3_lookup.specs.Generated.{IsGenerated, argument_over};
ghost use Rattle.batch_config.specs.Setting.{Setting};
ghost use Rattle.batch_statement.specs.Statement.{Statement};
ghost use Rattle.law_committed.specs.Committed.{Holds};
ghost use Rattle.law_committed.specs.Fields.{FieldsLaws};
ghost use Rattle.law_committed.specs.Identity.{CommittedIdentity};
ghost use Rattle.law_committed.specs.Quotient.{IsQuotientDomain, honest_quotient};
ghost use Rattle.law_committed.specs.Rows.{CommitsTo};
ghost use Rattle.law_committed.specs.Traces.{IsTall};
ghost use Rattle.law_valid.specs.Traced.{committed_alone, committed_with, constraints, declared, log_parts, log_rows, quotient_shift, traced_at, traces_of};
ghost use Rattle.law_valid.specs.Valid.{IsTracedBatch, Valid};

/// In a traced batch each table with permutation columns of its height is committed to: its polynomials are the interpolants of the
/// columns (`commits`). Its quotient has a domain (`domain`).
pub fn a_traced_table_is_committed<C, F, E, Com>()
    ensures commits { (c : Setting C F E Com) (commitment_of : List (CosetData F × Rows F) → Com)
        (s : Statement F Com) (traces : List (Rows F)) (degree_bits : List ℕ)
        (inverse : E → E) (i : ℕ) (columns : Rows E) (challenges terminals : List E)
        → FieldsLaws c.field c.extension c.two_adicity inverse
        → IsTracedBatch c commitment_of s traces degree_bits → i < length s.tables
        → IsTall (2 ^ log_rows c (traced_at s traces degree_bits i)) columns
        → CommitsTo c.field c.extension
        (committed_with c (traced_at s traces degree_bits i) columns challenges terminals)
        (traces_of (traced_at s traces degree_bits i)) columns }
    ensures domain { (c : Setting C F E Com) (commitment_of : List (CosetData F × Rows F) → Com)
        (s : Statement F Com) (traces : List (Rows F)) (degree_bits : List ℕ)
        (inverse : E → E) (i : ℕ) (columns : Rows E) (challenges terminals : List E)
        → FieldsLaws c.field c.extension c.two_adicity inverse
        → IsTracedBatch c commitment_of s traces degree_bits → i < length s.tables
        → let t = traced_at s traces degree_bits i in
        IsQuotientDomain c.field c.extension (committed_with c t columns challenges terminals)
        (quotient_shift c) (log_parts c t) c.two_adicity }
{}

/// Where a statement with traces is valid, and the AIR of one of its tables reads declared cells alone, as each AIR does, all
/// constraints of the table are zero on its rows: without lookups those of the table without permutation columns (`alone`), and
/// with lookups those of the table with the permutation columns and the terminal that `generate_permutation` gives (`generated`).
pub fn a_valid_table_holds<C, F, E, Com>()
    ensures alone { (c : Setting C F E Com) (eq : F → F → Bool)
        (commitment_of : List (CosetData F × Rows F) → Com) (s : Statement F Com)
        (traces : List (Rows F))
        (degree_bits : List ℕ) (inverse : E → E) (i : ℕ)
        → FieldsLaws c.field c.extension c.two_adicity inverse
        → Valid c eq commitment_of s traces degree_bits → i < length s.tables
        → let t = traced_at s traces degree_bits i in
        All (ReadsDeclared (declared_shape (declared t))) t.table.trees → t.lookups ≡ []
        → Holds c.field c.extension (committed_alone c t) (constraints c t) }
    ensures generated { (c : Setting C F E Com) (eq : F → F → Bool)
        (commitment_of : List (CosetData F × Rows F) → Com) (s : Statement F Com)
        (traces : List (Rows F))
        (degree_bits : List ℕ) (inverse : E → E) (i : ℕ) (columns : Rows E) (challenges : List E)
        (terminal : LookupTerminal E)
        → FieldsLaws c.field c.extension c.two_adicity inverse
        → Valid c eq commitment_of s traces degree_bits → i < length s.tables
        → let t = traced_at s traces degree_bits i in
        All (ReadsDeclared (declared_shape (declared t))) t.table.trees
        → IsTall (2 ^ log_rows c t) columns
        → IsGenerated (argument_over c.field.ring c.extension.ring inverse c.extension.embed t.trace
        (declared t).preprocessed t.publics t.lookups challenges) (height t.trace)
        (Ok (columns, terminal))
        → Holds c.field c.extension (committed_with c t columns challenges (terminal.0 ∷ []))
        (constraints c t) }
{}

/// Where a statement with traces is valid and all constraints of one of its tables are zero on its rows, as they are above, the
/// identity of these with the honest quotient holds at every point, whatever folds them. For a table of n rows and a quotient of
/// C chunks, n (C + 1) is below 2^64.
pub fn a_valid_table_has_its_identity<C, F, E, Com>()
    ensures { (c : Setting C F E Com) (eq : F → F → Bool)
        (commitment_of : List (CosetData F × Rows F) → Com) (s : Statement F Com)
        (traces : List (Rows F))
        (degree_bits : List ℕ) (inverse : E → E) (i : ℕ) (columns : Rows E)
        (challenges terminals : List E) (alpha x : E)
        → FieldsLaws c.field c.extension c.two_adicity inverse
        → Valid c eq commitment_of s traces degree_bits → i < length s.tables
        → let t = traced_at s traces degree_bits i in
        2 ^ log_rows c t * (2 ^ log_parts c t + 1) < 2 ^ 64 → IsTall (2 ^ log_rows c t) columns
        → Holds c.field c.extension (committed_with c t columns challenges terminals)
        (constraints c t)
        → CommittedIdentity c.field c.extension (committed_with c t columns challenges terminals)
        (constraints c t)
        (honest_quotient c.field c.extension (committed_with c t columns challenges terminals)
        (quotient_shift c) (log_parts c t) (constraints c t) alpha) alpha x }
{}
