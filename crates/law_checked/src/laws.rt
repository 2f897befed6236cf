//! From a check of rows to a valid statement, and from that to its quotients: laws as the contracts of functions that compute nothing.
ghost use Rattle.std.specs.Prelude.{◌≡◌, ℕ, ◌+◌, ◌*◌, ◌^◌, ◌<◌, Bool, List, length, All, Option};
ghost use Rattle.p3_field.specs.Domain.{CosetData};
ghost use Rattle.p3_field.specs.Poly.{eval_poly};
ghost use Rattle.p3_matrix.specs.Matrix.{Rows};
ghost use Rattle.air_core.specs.Shape.{ReadsDeclared, declared_shape};
ghost use Rattle.p3_lookup.specs.Bound.{HaveLoadsBelow};
ghost use Rattle.batch_config.specs.Setting.{Setting, masks};
ghost use Rattle.batch_statement.specs.Statement.{Statement};
ghost use Rattle.verifier_shape.specs.ShapeChecks.{heights_of};
ghost use Rattle.law_committed.specs.Fields.{FieldsLaws};
ghost use Rattle.law_committed.specs.Identity.{quotient_poly};
ghost use Rattle.law_committed.specs.Quotient.{fold_quotient, honest_quotient};
ghost use Rattle.law_honest.specs.HonestProof.{HaveFractions, Prover, honest_committed_at};
ghost use Rattle.law_valid.specs.Traced.{TracedTable, all_traced, constraints, declared, log_parts, log_rows, quotient_shift, traced_at};
ghost use Rattle.law_valid.specs.Valid.{AllFit, AreBalanced, HasQuotientDomain, IsTraced, IsTracedBatch, OwnHold, Valid};
ghost use Rattle.law_checked.specs.Found.{FindsNothing, HasSelectorsAsFactorsAll};

/// Where `check_constraints` of `batch_check` finds nothing on the traces of a table, the constraints of its AIR hold, as a valid statement asks (`table`): with
/// any lookups and permutation columns, or none. The table is traced, and a selector is multiplied alone in each constraint: `check_constraints` reads it as one,
/// and a committed table as another value.
///
/// So a traced batch is valid where the check finds nothing on each table, each constraint fits its chunks, no bus may carry counts that add up to the order of the
/// field, and what the tables send balances (`batch`). Of the conditions that `prove_batch` asks for the batch is `IsTracedBatch`.
pub fn checked_batches_are_valid<S, F, E, C>()
    ensures table { (c : Setting S F E C) (inverse : E → E) (t : TracedTable F)
        → FieldsLaws c.field c.extension c.two_adicity inverse → IsTraced c t
        → HasQuotientDomain c t
        → HasSelectorsAsFactorsAll t → FindsNothing c t → OwnHold c t }
    ensures batch { (c : Setting S F E C) (inverse : E → E) (eq : F → F → Bool)
        (commitment_of : List (CosetData F × Rows F) → C) (s : Statement F C)
        (traces : List (Rows F)) (degree_bits : List ℕ)
        → FieldsLaws c.field c.extension c.two_adicity inverse
        → IsTracedBatch c commitment_of s traces degree_bits
        → ((i : ℕ) → i < length s.tables
        → HasSelectorsAsFactorsAll (traced_at s traces degree_bits i))
        → ((i : ℕ) → i < length s.tables → FindsNothing c (traced_at s traces degree_bits i))
        → ((i : ℕ) → i < length s.tables → AllFit c (traced_at s traces degree_bits i))
        → HaveLoadsBelow c.order s.common.lookups
        (heights_of (masks c) degree_bits (length s.tables))
        → AreBalanced c eq (all_traced s traces degree_bits)
        → Valid c eq commitment_of s traces degree_bits }
{}

/// For a valid statement whose denominators aren't zero, the quotient that is put together of a table's honest chunks is at every point that of the fold of its
/// constraints by the vanishing polynomial of its rows, whatever folds them. The AIRs read declared cells alone, as each AIR does; for a table of n rows and a
/// quotient of C chunks, n (C + 1) is below 2^64.
pub fn valid_batches_have_quotients<S, F, E, C>()
    ensures { (c : Setting S F E C) (p : Prover F E C) (eq : F → F → Bool) (s : Statement F C)
        (traces : List (Rows F)) (degree_bits : List ℕ) (lookup_witness : Option F) (i : ℕ)
        (folding x : E)
        → FieldsLaws c.field c.extension c.two_adicity p.inverse
        → Valid c eq p.commitment_of s traces degree_bits → i < length s.tables
        → let t = traced_at s traces degree_bits i in
        All (ReadsDeclared (declared_shape (declared t))) t.table.trees
        → HaveFractions c p s traces degree_bits lookup_witness
        → 2 ^ log_rows c t * (2 ^ log_parts c t + 1) < 2 ^ 64
        → let k = honest_committed_at c p s traces degree_bits lookup_witness i in
        eval_poly c.extension.ring
        (quotient_poly c.field c.extension
        (honest_quotient c.field c.extension k (quotient_shift c) (log_parts c t) (constraints c t)
        folding)) x
        ≡ eval_poly c.extension.ring (fold_quotient c.field c.extension k (constraints c t) folding)
        x }
{}
