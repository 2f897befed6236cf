//! Committed tables on their rows: laws as the contracts of functions that compute nothing.
ghost use Rattle.std.specs.Prelude.{◌≡◌, ◌↔◌, ℕ, ◌+◌, ◌%◌, ◌^◌, ◌<◌, ◌≤◌, List, All};
ghost use Rattle.p3_field.specs.Field.{TwoAdic, Extension};
ghost use Rattle.p3_field.specs.Ring.{Ring};
ghost use Rattle.p3_matrix.specs.Matrix.{Rows, height, row_at};
ghost use Rattle.air_core.specs.CellValues.{cell_in};
ghost use Rattle.air_core.specs.Check.{TableTraces, table_row};
ghost use Rattle.air_core.specs.RowCheck.{Row, cell_value, tree_value_at_row};
ghost use Rattle.air_core.specs.Tree.{Tree};
ghost use Rattle.law_committed.specs.BaseRows.{ReadRows, ReadsMainHere, main_row};
ghost use Rattle.law_committed.specs.Committed.{CommittedTable, Holds, IsBounded, next_point, row_point, row_count_of, committed_values_at};
ghost use Rattle.law_committed.specs.Fields.{FieldsLaws};
ghost use Rattle.law_committed.specs.Rows.{AreOfRow, CommitsTo, row_of_traces};
ghost use Rattle.law_committed.specs.Traces.{HaveTraceRows, committed_traces};

/// The point of the next row is that of row (i + 1) modulo the height (`next`). On the rows the first row's selector is zero
/// in all but the first, the last row's in all but the last, and the transition's in the last alone (`first`, `last`,
/// `transition`).
pub fn selectors_mark_their_rows<F, E>()
    ensures next { (f : TwoAdic F) (e : Extension F E) (top : ℕ) (inverse : E → E)
        (t : CommittedTable F E) (i : ℕ) → FieldsLaws f e top inverse
        → t.log_height ≤ top → i < row_count_of t
        → next_point f e t (row_point f e t i) ≡ row_point f e t ((i + 1) % row_count_of t) }
    ensures first { (f : TwoAdic F) (e : Extension F E) (top : ℕ) (inverse : E → E)
        (t : CommittedTable F E) (i : ℕ) → FieldsLaws f e top inverse
        → t.log_height ≤ top → i < row_count_of t
        → ((committed_values_at f e t (row_point f e t i)).first_row ≡ e.ring.zero) ↔ (0 < i) }
    ensures last { (f : TwoAdic F) (e : Extension F E) (top : ℕ) (inverse : E → E)
        (t : CommittedTable F E) (i : ℕ) → FieldsLaws f e top inverse
        → t.log_height ≤ top → i < row_count_of t
        → ((committed_values_at f e t (row_point f e t i)).last_row ≡ e.ring.zero)
        ↔ (i + 1 < row_count_of t) }
    ensures transition { (f : TwoAdic F) (e : Extension F E) (top : ℕ) (inverse : E → E)
        (t : CommittedTable F E) (i : ℕ) → FieldsLaws f e top inverse
        → t.log_height ≤ top → i < row_count_of t
        → ((committed_values_at f e t (row_point f e t i)).transition ≡ e.ring.zero)
        ↔ (i + 1 ≡ row_count_of t) }
{}

/// A table that commits to traces reads on row i what a check of rows reads there: row i of each matrix, row (i + 1) modulo
/// the height for next cells, each periodic column at i modulo its length, and selectors that are zero where those of the
/// check are (`row`). Its polynomials have degrees below its height (`bounded`).
pub fn a_committed_table_has_its_traces_rows<F, E>()
    ensures row { (f : TwoAdic F) (e : Extension F E) (top : ℕ) (inverse : E → E)
        (t : CommittedTable F E) (traces : TableTraces F) (columns : Rows E) (i : ℕ)
        → FieldsLaws f e top inverse
        → t.log_height ≤ top → CommitsTo f e t traces columns → i < row_count_of t
        → AreOfRow e (row_of_traces f.ring.zero traces columns t.challenges t.terminals i)
        (committed_values_at f e t (row_point f e t i)) }
    ensures bounded { (f : TwoAdic F) (e : Extension F E) (top : ℕ) (inverse : E → E)
        (t : CommittedTable F E) (traces : TableTraces F) (columns : Rows E)
        → FieldsLaws f e top inverse
        → CommitsTo f e t traces columns → IsBounded f t }
{}

/// Traces and permutation columns of 2^k rows, which each periodic column fits, are committed to by the interpolants of their
/// columns: so there is a table that commits to them.
pub fn traces_are_committed<F, E>()
    ensures { (f : TwoAdic F) (e : Extension F E) (top : ℕ) (inverse : E → E) (k : ℕ)
        (traces : TableTraces F) (columns : Rows E) (challenges terminals : List E)
        → FieldsLaws f e top inverse
        → k ≤ top → HaveTraceRows (2 ^ k) traces columns
        → CommitsTo f e (committed_traces f e traces columns challenges terminals k) traces
        columns }
{}

/// What is read at a table's rows over the base field (not in Plonky3): this row's main cells, those of the next row but in the
/// last, the public values, and selectors that are zero exactly where they don't select (`ReadRows`). So a committed table reads
/// its rows above the field (`committed`), and a check of rows those of traces (`traces`).
pub fn rows_are_read<F, E>()
    ensures committed { (f : TwoAdic F) (e : Extension F E) (top : ℕ) (inverse : E → E)
        (t : CommittedTable F E) → FieldsLaws f e top inverse → t.log_height ≤ top
        → ReadRows f.ring e.ring e.embed (row_count_of t) (main_row f t) t.public_values
        (λ i. cell_in e.ring.zero (committed_values_at f e t (row_point f e t i))) }
    ensures traces { (r : Ring F) (t : TableTraces F) → (r.one ≡ r.zero → ⊥)
        → ReadRows r r (λ x. x) (height t.main) (row_at t.main) t.public_values
        (λ i. cell_value r (table_row r.zero t i)) }
{}

/// Where a committed table holds with constraints that read this row's main cells alone, they are zero on each of its rows over the
/// base field (not in Plonky3): a row of the table's main columns there meets them.
pub fn rows_hold_below<F, E>()
    ensures { (f : TwoAdic F) (e : Extension F E) (top : ℕ) (inverse : E → E)
        (t : CommittedTable F E) (trees : List (Tree F)) (i : ℕ) (row : Row F F)
        → FieldsLaws f e top inverse
        → Holds f e t trees → i < row_count_of t → row.main_local ≡ main_row f t i
        → All ReadsMainHere trees
        → All (λ tree. tree_value_at_row f.ring f.ring (λ y. y) row tree ≡ f.ring.zero) trees }
{}
