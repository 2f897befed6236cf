//! Folds as values of polynomials: laws as the contracts of functions that compute nothing.
ghost use Rattle.std.specs.Prelude.{◌≡◌, ℕ, List, All, length, map, reverse};
ghost use Rattle.p3_field.specs.Poly.{eval_poly, DegreeBelow, IsZeroPoly};
ghost use Rattle.air_core.specs.CellValues.{CellValues, reading_at, map_values, poly_reading};
ghost use Rattle.air_core.specs.Tree.{Tree, eval_tree};
ghost use Rattle.p3_uni_stark.specs.Fold.{fold};
ghost use Rattle.p3_uni_stark.specs.FoldPolynomials.{fold_poly};

use p3_field::{Field, FieldCore, RingCore};

/// The fold of polynomials has the fold of their values as its value at each point (`value`), and no greater degree than
/// they (`degree`). So the fold of constraints at a point is the value there of the fold of their polynomials (`trees`).
pub fn a_fold_is_a_polynomial<F, EF: Field>()
    ensures value { (a x : EF) (ps : List (List EF))
        → eval_poly EF.ring (fold_poly EF.ring a ps) x
        ≡ fold EF.ring a (map (λ p. eval_poly EF.ring p x) ps) }
    ensures degree { (a : EF) (n : ℕ) (ps : List (List EF)) → All (DegreeBelow EF.ring n) ps
        → DegreeBelow EF.ring n (fold_poly EF.ring a ps) }
    ensures trees { (embed : F → EF) (v : CellValues (List EF)) (a x : EF) (ts : List (Tree F))
        → eval_poly EF.ring (fold_poly EF.ring a
        (map (eval_tree (poly_reading EF.ring embed v)) ts)) x
        ≡ fold EF.ring a (map (eval_tree
        (reading_at EF.ring embed (map_values (λ p. eval_poly EF.ring p x) v))) ts) }
{}

/// A fold is the value at the challenge of the polynomial with the values as coefficients, the last first (`value`). This
/// is the zero polynomial only where all the values are zero (`zero`), so that few challenges fold others to zero.
pub fn a_fold_is_a_value_at_its_challenge<EF: Field>()
    ensures value { (a : EF) (cs : List EF) → fold EF.ring a cs ≡ eval_poly EF.ring (reverse cs) a }
    ensures zero { (cs : List EF) → IsZeroPoly EF.ring (reverse cs)
        → All (λ c. c ≡ EF.ring.zero) cs }
{}
