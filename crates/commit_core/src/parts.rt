//! What a split in parts is: laws as the contracts of functions that compute nothing.
ghost use Rattle.std.specs.Prelude.{◌≡◌, ℕ, ◌<◌};
ghost use Rattle.p3_matrix.specs.Matrix.{Rows, FillsRows};
ghost use Rattle.commit_core.specs.Space.{AreDisjoint, IsSplit};

use crate::domain::PolynomialSpace;
use p3_field::{FieldCore, RingCore};

/// Two parts of a space that is split have no point in common. So a quotient is recombined from what `split_domains`
/// gives without a test of its domains.
pub fn parts_are_disjoint<D: PolynomialSpace>()
    ensures { (whole first second : D) (c i j : ℕ) → D.valid whole → D.part whole c i first
        → D.part whole c j second → i < c → j < c → (i ≡ j → ⊥)
        → AreDisjoint (D.points first) (D.point_at first) (D.points second) (D.point_at second) }
{}

/// The rows of a part are one matrix: what `split_evals` gives is fixed whole.
pub fn a_split_is_one<F: FieldCore>()
    ensures { (m first second : Rows F) (c i : ℕ) → 0 < c → FillsRows first.values first.width
        → FillsRows second.values second.width
        → IsSplit m c i first → IsSplit m c i second → first ≡ second }
{}
