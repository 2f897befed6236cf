//! What the constraints mean: laws as the contracts of functions that compute nothing.
//!
//! Each premise is that one and one is zero in the field, as `twice_is_zero` of `p3_field` says it of fields in which `TWO` is
//! zero. `means_over_gf256` shows that `Gf256` meets it.
ghost use Rattle.std.specs.Prelude.{◌≡◌, ℕ, ◌≤◌, All};
ghost use Rattle.air_core.specs.declared.cells.Cell.{Cell};
ghost use Rattle.air_core.specs.declared.cells.ExtCell.{ExtCell};
ghost use Rattle.air_core.specs.Degree.{multiple};
ghost use Rattle.air_gadgets.specs.Words.{cells_reading};
ghost use Rattle.p3_field.specs.Gf256.{gf256_ring};
ghost use Rattle.blake3_binary.specs.Trees.{binary_trees};
ghost use Rattle.blake3_binary.specs.Meanings.{Sum2Means, Sum3Means, BinaryStepMeans, BinaryRowMeans, BinaryWordsAreDetermined, OneCompletion, ConstraintCounts};

use p3_field::{Field, Gf256};

/// Where x and y are bits, the 32 constraints of a sum of two are zero exactly where s is x + y modulo 2^32 (`sum2`); those of
/// a sum of three exactly where also the carries are those of x + y (`sum3`). Where the words before a step and its two
/// message words are bits, the step's 190 constraints are zero exactly where its cells are those of G (`step`).
pub fn step_means<F: Field>()
    requires { F.ring.add F.ring.one F.ring.one ≡ F.ring.zero }
    ensures sum2 { (at : Cell → F) (at_ext : ExtCell → F)
        → Sum2Means F.ring (cells_reading F.ring at at_ext) }
    ensures sum3 { (at : Cell → F) (at_ext : ExtCell → F)
        → Sum3Means F.ring (cells_reading F.ring at at_ext) }
    ensures step { (at : Cell → F) (at_ext : ExtCell → F)
        → BinaryStepMeans F.ring (cells_reading F.ring at at_ext) }
{}

/// A row of 11536 cells meets all constraints exactly when it is the row of one compression (`exact`), and that compression's
/// 28 words are determined by the row (`one`).
pub fn row_means<F: Field>()
    requires { F.ring.add F.ring.one F.ring.one ≡ F.ring.zero }
    ensures exact { BinaryRowMeans F.ring }
    ensures one { BinaryWordsAreDetermined F.ring }
{}

/// Each choice of the input's 896 cells, of any values, has exactly one completion that meets the constraints of the
/// steps: the list where the cells of the input are taken for bits.
pub fn one_completion<F: Field>()
    requires { F.ring.add F.ring.one F.ring.one ≡ F.ring.zero }
    ensures { OneCompletion F.ring }
{}

/// There are 11536 constraints, and 10640 without those that the input's cells are bits.
pub fn constraints_are_counted<F: Field>()
    ensures { ConstraintCounts F.ring }
{}

/// The constraints have degree at most 2, whatever degree the transition selector has.
pub fn degree_is_two<F: Field>()
    ensures { (n : ℕ) → All (λ t. multiple n t ≤ 2) (binary_trees F.ring) }
{}

/// The field of 256 elements meets the premise: exactness and the one completion hold over it.
pub fn means_over_gf256()
    ensures rows { BinaryRowMeans gf256_ring }
    ensures completion { OneCompletion gf256_ring }
{
    row_means::<Gf256>();
    one_completion::<Gf256>();
}
