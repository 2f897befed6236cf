//! What a tree's value is fixed by: laws as the contracts of functions that compute nothing.
ghost use Rattle.std.specs.Prelude.{◌≡◌, ℕ, suc, ◌-◌, ◌^◌, ◌<◌, ◌≤◌, List, [], length, map};
ghost use Rattle.p3_field.specs.Ring.{Ring};
ghost use Rattle.p3_field.specs.Field.{RingHom};
ghost use Rattle.p3_field.specs.Poly.{eval_poly, DegreeBelow};
ghost use Rattle.air_core.specs.declared.cells.Cell.{Cell};
ghost use Rattle.air_core.specs.declared.cells.ExtCell.{ExtCell};
ghost use Rattle.air_core.specs.CellValues.{CellValues, cell_in, ext_cell_in, reading_at, map_values, row_values_in, poly_reading, HaveDegrees};
ghost use Rattle.air_core.specs.Degree.{degree, full_degree, polynomial_degree, HasPeriod};
ghost use Rattle.air_core.specs.Maps.{reading_over, Keeps, AgreeOn};
ghost use Rattle.air_core.specs.Shape.{Shape, Declaration, Declares, DeclaresExt, ReadsIn, ReadsDeclared, declared_shape};
ghost use Rattle.air_core.specs.RowCheck.{Row, row_reading};
ghost use Rattle.air_core.specs.Tree.{Tree, Reading, eval_tree};

use p3_field::RingCore;

/// A tree has one value: two readings over one ring that agree on the cells that it reads give it the same (`same`), and so
/// where it reads declared cells alone and they agree on these (`declared`). Its value goes along each map that keeps
/// constants, sums, differences and products and takes the cells that it reads to one another (`along`); so along a map of
/// rings the value's image is the value at the images (`image`).
pub fn a_tree_has_one_value<F, E: RingCore, G: RingCore>()
    ensures same { (r : Ring E) (embed : F → E) (at second : Cell → E)
        (at_ext second_ext : ExtCell → E) (t : Tree F)
        → ReadsIn (λ c. at c ≡ second c) (λ c. at_ext c ≡ second_ext c) t
        → eval_tree (reading_over r embed at at_ext) t
        ≡ eval_tree (reading_over r embed second second_ext) t }
    ensures declared { (r : Ring E) (embed : F → E) (at second : Cell → E)
        (at_ext second_ext : ExtCell → E) (s : Shape) (t : Tree F)
        → ((c : Cell) → Declares s c → at c ≡ second c)
        → ((c : ExtCell) → DeclaresExt s c → at_ext c ≡ second_ext c) → ReadsDeclared s t
        → eval_tree (reading_over r embed at at_ext) t
        ≡ eval_tree (reading_over r embed second second_ext) t }
    ensures along { (first : Reading F E) (second : Reading F G) (f : E → G) (t : Tree F)
        → Keeps first second f → AgreeOn first second f t
        → f (eval_tree first t) ≡ eval_tree second t }
    ensures image { (f : E → G) (embed : F → E) (at : Cell → E) (at_ext : ExtCell → E) (t : Tree F)
        → RingHom E.ring G.ring f
        → f (eval_tree (reading_over E.ring embed at at_ext) t)
        ≡ eval_tree (reading_over G.ring (λ x. f (embed x)) (λ c. f (at c)) (λ c. f (at_ext c))) t }
{}

/// Rows and points are read in one way: a row as its values in the extension are (`row`). The image of a tree's value along
/// a map of rings is its value at the images (`image`). `a_tree_is_a_polynomial` says it of polynomials.
pub fn there_is_one_reading<F: RingCore, E: RingCore, G: RingCore>()
    ensures row { (embed : F → E) (r : Row F E) → embed F.ring.zero ≡ E.ring.zero
        → row_reading F.ring E.ring embed r
        ≡ reading_at E.ring embed (row_values_in F.ring embed r) }
    ensures image { (f : E → G) (embed : F → E) (v : CellValues E) (t : Tree F)
        → RingHom E.ring G.ring f
        → f (eval_tree (reading_at E.ring embed v) t)
        ≡ eval_tree (reading_at G.ring (λ x. f (embed x)) (map_values f v)) t }
{}

/// A tree that is read on polynomials is a polynomial. Its value at a point is the tree's at their values there (`value`).
/// It has at most the tree's degree, whatever degrees the cells have, where products don't stop at the greatest `usize`
/// (`full`); so it has at most the degree of `poly_degree`, where that is below the greatest `usize` (`degree`).
pub fn a_tree_is_a_polynomial<F, E: RingCore>()
    ensures value { (embed : F → E) (v : CellValues (List E)) (x : E) (t : Tree F)
        → eval_poly E.ring (eval_tree (poly_reading E.ring embed v) t) x
        ≡ eval_tree (reading_at E.ring embed (map_values (λ p. eval_poly E.ring p x) v)) t }
    ensures full { (embed : F → E) (v : CellValues (List E)) (f : Cell → ℕ) (g : ExtCell → ℕ)
        (t : Tree F)
        → ReadsIn (λ c. DegreeBelow E.ring (suc (f c)) (cell_in [] v c))
        (λ c. DegreeBelow E.ring (suc (g c)) (ext_cell_in [] v c)) t
        → DegreeBelow E.ring (suc (full_degree f g t)) (eval_tree (poly_reading E.ring embed v) t) }
    ensures degree { (embed : F → E) (v : CellValues (List E)) (n : ℕ) (periods : List ℕ)
        (t : Tree F)
        → HaveDegrees E.ring n periods v → polynomial_degree n periods t < 2 ^ 64 - 1
        → DegreeBelow E.ring (suc (polynomial_degree n periods t))
        (eval_tree (poly_reading E.ring embed v) t) }
{}

/// A degree below the greatest `usize` is what it is without the stop there.
pub fn a_degree_below_the_stop_is_full<F>()
    ensures { (f : Cell → ℕ) (g : ExtCell → ℕ) (t : Tree F) → degree f g t < 2 ^ 64 - 1
        → degree f g t ≡ full_degree f g t }
{}

/// A tree that reads declared cells alone reads no periodic column without a period, be it declared by a shape (`shape`) or
/// by an AIR (`air`): so `poly_degree` may be asked for its degree.
pub fn declared_columns_have_periods<F>()
    ensures shape { (s : Shape) (periods : List ℕ) (t : Tree F)
        → s.periodic ≤ length periods → ReadsDeclared s t
        → ReadsIn (HasPeriod periods) (λ _. Unit {0}) t }
    ensures air { (d : Declaration F) (t : Tree F)
        → ReadsDeclared (declared_shape d) t
        → ReadsIn (HasPeriod (map length d.periodic)) (λ _. Unit {0}) t }
{}
