//! Committed tables as polynomials: laws as the contracts of functions that compute nothing.
ghost use Rattle.std.specs.Prelude.{◌≡◌, ℕ, suc, ◌≤◌};
ghost use Rattle.p3_field.specs.Field.{TwoAdic, Extension};
ghost use Rattle.p3_field.specs.Poly.{eval_poly, DegreeBelow};
ghost use Rattle.air_core.specs.CellValues.{map_values, HaveDegrees};
ghost use Rattle.air_core.specs.Degree.{full_polynomial_degree};
ghost use Rattle.air_core.specs.Tree.{Tree, eval_tree};
ghost use Rattle.law_committed.specs.Committed.{CommittedTable, IsBounded, table_periods_of, reading, row_count_of, committed_values_at};
ghost use Rattle.law_committed.specs.Fields.{FieldsLaws};
ghost use Rattle.law_committed.specs.Polynomials.{cell_polys, tree_poly};

/// The values of a committed table at a point are those of its cells' polynomials there (`cells`), and so a tree's value at a
/// point is that of the tree's polynomial (`tree`).
pub fn a_committed_tree_is_a_polynomial<F, E>()
    ensures cells { (f : TwoAdic F) (e : Extension F E) (top : ℕ) (inverse : E → E)
        (t : CommittedTable F E) (x : E) → FieldsLaws f e top inverse
        → map_values (λ p. eval_poly e.ring p x) (cell_polys f e t) ≡ committed_values_at f e t x }
    ensures tree { (f : TwoAdic F) (e : Extension F E) (top : ℕ) (inverse : E → E)
        (t : CommittedTable F E) (x : E) (tree : Tree F) → FieldsLaws f e top inverse
        → eval_poly e.ring (tree_poly f e t tree) x ≡ eval_tree (reading f e t x) tree }
{}

/// Where a table's committed polynomials have degrees below its height and its periodic columns fit, the polynomials of its
/// cells have at most the cells' degrees over its rows (`cells`), and a tree's at most the tree's (`tree`): these don't stop
/// at the greatest `usize`.
pub fn a_committed_tree_has_its_degree<F, E>()
    ensures cells { (f : TwoAdic F) (e : Extension F E) (top : ℕ) (inverse : E → E)
        (t : CommittedTable F E) → FieldsLaws f e top inverse
        → t.log_height ≤ top → IsBounded f t
        → HaveDegrees e.ring (row_count_of t) (table_periods_of t) (cell_polys f e t) }
    ensures tree { (f : TwoAdic F) (e : Extension F E) (top : ℕ) (inverse : E → E)
        (t : CommittedTable F E) (tree : Tree F) → FieldsLaws f e top inverse
        → t.log_height ≤ top → IsBounded f t
        → DegreeBelow e.ring (suc
        (full_polynomial_degree (row_count_of t) (table_periods_of t) tree))
        (tree_poly f e t tree) }
{}
