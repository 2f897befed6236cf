//! The degrees of a domain's polynomials: laws as the contracts of functions that compute nothing.
ghost use Rattle.std.specs.Prelude.{◌≡◌, ℕ, suc, ◌-◌, ◌*◌, ◌/◌, ◌^◌, ◌≤◌, List, length};
ghost use Rattle.p3_field.specs.Ring.{pow};
ghost use Rattle.p3_field.specs.Poly.{eval_poly, DegreeBelow};
ghost use Rattle.p3_field.specs.Domain.{CosetData, IsInterpolant, point, vanishing_polynomial, first_selector, last_selector, transition_selector};
ghost use Rattle.commit_core.specs.Periodic.{IsPeriod, over_rows};

use p3_field::{FieldCore, RingCore, TwoAdicCore, TwoAdicField};

/// Over n rows the polynomial that vanishes on the domain has at most degree n, those of the selectors of the first and of
/// the last row at most n - 1, and that of the selector of all rows but the last at most one.
pub fn selectors_have_degrees<F: TwoAdicField>()
    ensures vanishing { (d : CosetData F)
        → DegreeBelow F.ring (suc (2 ^ d.log_size)) (vanishing_polynomial F.ring F.inv d) }
    ensures first { (d : CosetData F)
        → DegreeBelow F.ring (2 ^ d.log_size) (first_selector F.ring F.inv d) }
    ensures last { (d : CosetData F)
        → DegreeBelow F.ring (2 ^ d.log_size) (last_selector F.ring F.inv F.root d) }
    ensures transition { (d : CosetData F)
        → DegreeBelow F.ring 2 (transition_selector F.ring F.inv F.root d) }
{}

/// The interpolant of a column that repeats k values over n rows is that of the k values in X^(n/k): its value at x is
/// theirs at x^(n/k) (`power`), and its degree is at most (k - 1) (n / k) (`degree`).
pub fn repeated_columns_have_degrees<F: TwoAdicField>()
    ensures power { (d : CosetData F) (k : ℕ) (column f g : List F) (x : F)
        → d.log_size ≤ F.TWO_ADICITY → (d.shift ≡ F.ring.zero → ⊥)
        → length column ≡ 2 ^ k → k ≤ d.log_size
        → IsInterpolant F.ring (point F.ring F.root
        (record { shift = pow F.ring d.shift (2 ^ (d.log_size - k)); log_size = k })) column g
        → IsInterpolant F.ring (point F.ring F.root d) (over_rows (2 ^ d.log_size) column) f
        → eval_poly F.ring f x ≡ eval_poly F.ring g (pow F.ring x (2 ^ (d.log_size - k))) }
    ensures degree { (d : CosetData F) (column f : List F) → d.log_size ≤ F.TWO_ADICITY
        → (d.shift ≡ F.ring.zero → ⊥)
        → IsPeriod (2 ^ d.log_size) (length column)
        → IsInterpolant F.ring (point F.ring F.root d) (over_rows (2 ^ d.log_size) column) f
        → DegreeBelow F.ring (suc ((length column - 1) * (2 ^ d.log_size / length column))) f }
{}
