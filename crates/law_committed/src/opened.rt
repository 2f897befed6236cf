//! Values that are opened from a committed table's polynomials: laws as the contracts of functions that compute nothing.
ghost use Rattle.std.specs.Prelude.{◌≡◌, ◌↔◌, ℕ, ◌*◌, ◌≤◌, List, All, length, map};
ghost use Rattle.p3_field.specs.Field.{TwoAdic, Extension};
ghost use Rattle.p3_field.specs.Poly.{eval_poly_in};
ghost use Rattle.p3_field.specs.Domain.{point};
ghost use Rattle.air_core.specs.CellValues.{CellValues, reading_at};
ghost use Rattle.air_core.specs.Shape.{Shape, ReadsDeclared};
ghost use Rattle.air_core.specs.Tree.{Tree, eval_tree};
ghost use Rattle.commit_core.specs.Periodic.{IsPeriod, IsPeriodicAt};
ghost use Rattle.law_committed.specs.Committed.{CommittedTable, columns_at, periodic_poly, permutation_at, reading, row_count_of, trace_domain};
ghost use Rattle.law_committed.specs.Fields.{FieldsLaws};
ghost use Rattle.law_committed.specs.Identity.{CommittedIdentity, CommittedQuotient, chunk_values};
ghost use Rattle.law_committed.specs.Opened.{AreOpened, AreOpenedRows, OpenedIdentity, recombined_values};

/// Values that are opened list by list are those of each declared cell (`cells`). Trees that read declared cells alone have by
/// them the values that they have on the committed table (`trees`). So the identity over opened values is that of the
/// committed polynomials, where the chunks' opened values are those of the chunks' polynomials (`identity`).
pub fn opened_values_are_the_committed_ones<F, E>()
    ensures cells { (f : TwoAdic F) (e : Extension F E) (t : CommittedTable F E) (s : Shape)
        (v : CellValues E) (x : E)
        → AreOpenedRows f e t s v x → AreOpened f e t s v x }
    ensures trees { (f : TwoAdic F) (e : Extension F E) (t : CommittedTable F E) (s : Shape)
        (v : CellValues E) (x : E) (trees : List (Tree F))
        → AreOpened f e t s v x → All (ReadsDeclared s) trees
        → map (eval_tree (reading_at e.ring e.embed v)) trees
        ≡ map (eval_tree (reading f e t x)) trees }
    ensures identity { (f : TwoAdic F) (e : Extension F E) (t : CommittedTable F E) (s : Shape)
        (v : CellValues E) (x : E) (trees : List (Tree F))
        (q : CommittedQuotient F) (alpha : E) (chunks : List (List E))
        → AreOpened f e t s v x → All (ReadsDeclared s) trees → chunks ≡ chunk_values f e q x
        → OpenedIdentity f e t trees q alpha x v chunks ↔ CommittedIdentity f e t trees q alpha x }
{}

/// The values of flattened columns, put together, are those of the permutation columns, where there is a flattened column
/// for each basis element and permutation column (`permutation`). The value at a point that is computed for a periodic column
/// which fits the rows is that of the column's polynomial (`periodic`).
pub fn opened_rows_are_recombined<F, E>()
    ensures permutation { (f : TwoAdic F) (e : Extension F E) (top : ℕ) (inverse : E → E)
        (t : CommittedTable F E) (row : List E) (width : ℕ) (x : E) → FieldsLaws f e top inverse
        → length t.permutation ≡ width * e.dimension → row ≡ columns_at f e t t.permutation x
        → recombined_values e row width ≡ permutation_at f e t x }
    ensures periodic { (f : TwoAdic F) (e : Extension F E) (top : ℕ) (inverse : E → E)
        (t : CommittedTable F E) (column : List F) (x y : E) → FieldsLaws f e top inverse
        → t.log_height ≤ top → IsPeriod (row_count_of t) (length column)
        → IsPeriodicAt f.ring e.ring e.embed (row_count_of t)
        (point f.ring f.root (trace_domain f e t)) x column y
        → y ≡ eval_poly_in e (periodic_poly f e t column) x }
{}
