//! What the constraints mean: laws as the contracts of functions that compute nothing.
ghost use Rattle.std.specs.Prelude.{◌≡◌, ℕ, ◌^◌, ◌<◌, ◌≤◌, All, length};
ghost use Rattle.air_core.specs.declared.cells.Cell.{Cell};
ghost use Rattle.air_core.specs.declared.cells.ExtCell.{ExtCell};
ghost use Rattle.air_gadgets.specs.Words.{cells_reading};
ghost use Rattle.air_core.specs.Degree.{multiple};
ghost use Rattle.blake3_prime.specs.Trees.{blake3_trees};
ghost use Rattle.blake3_prime.specs.Meanings.{StepMeans, RowMeans, WordsAreDetermined};

use p3_field::{Field, PrimeField64};

/// Where the words before a step and its two message words are in range, the step's 144 constraints are zero exactly
/// where the words after each half of it are those of G.
pub fn step_means<F: PrimeField64>()
    requires { 2 ^ 20 < F.ORDER_U64 }
    ensures { (at : Cell → F) (at_ext : ExtCell → F)
        → StepMeans F.ring (cells_reading F.ring at at_ext) }
{}

/// A row of 9168 cells meets all constraints exactly when it is the row of one compression (`exact`), and that compression's
/// 28 words are determined by the row (`one`).
pub fn row_means<F: PrimeField64>()
    requires { 2 ^ 20 < F.ORDER_U64 }
    ensures exact { RowMeans F.ring }
    ensures one { WordsAreDetermined F.ring }
{}

/// The constraints have degree at most 3, whatever degree the transition selector has.
pub fn degree_is_three<F: Field>()
    ensures { (n : ℕ) → All (λ t. multiple n t ≤ 3) (blake3_trees F.ring) }
{}

/// There are 9632 constraints.
pub fn constraints_are_counted<F: Field>()
    ensures { length (blake3_trees F.ring) ≡ 9632 }
{}
