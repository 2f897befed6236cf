//! How the challenger over SHA-256 takes in a plain commitment.
ghost use Rattle.std.specs.Prelude.{◌≡◌, flat_map};
ghost use Rattle.p3_field.specs.BabyBear.{baby_bear_ring};
ghost use Rattle.p3_challenger.specs.Sha256.{observed_all};
ghost use Rattle.plain_pcs.specs.Observing.{matrix_elements, commitment_elements};

use crate::commitment::PlainCommitment;
use p3_challenger::{CanObserve, Sha256Challenger};
use p3_field::{BabyBear, RingCore};
use p3_matrix::RowMajorMatrix;

/// Takes in a matrix: its width, its height, and its values row by row.
fn observe_matrix(challenger: &mut Sha256Challenger, matrix: &RowMajorMatrix<BabyBear>)
    ensures { challenger.new
        ≡ observed_all challenger.old (matrix_elements baby_bear_ring matrix.now) }
{
    challenger.observe(&BabyBear::from_u64(matrix.width() as u64));
    challenger.observe(&BabyBear::from_u64(matrix.height() as u64));
    challenger.observe_slice(&matrix.values);
}

/// Takes in matrices, each in its turn.
fn observe_matrices(challenger: &mut Sha256Challenger, matrices: &[RowMajorMatrix<BabyBear>])
    ensures { challenger.new
        ≡ observed_all challenger.old (flat_map (matrix_elements baby_bear_ring) matrices.now) }
{
    for matrix in matrices {
        observe_matrix(challenger, matrix);
    }
}

#[tactic(auto, unfolding(crate::specs::Observing::commitment_elements))]
impl CanObserve<PlainCommitment<BabyBear>> for Sha256Challenger {
    ghost observed = { λ c m. observed_all c (commitment_elements baby_bear_ring m) };

    /// Takes in the number of matrices, then of each matrix its width, its height and its values row by row, each as a field
    /// element.
    fn observe(&mut self, value: &PlainCommitment<BabyBear>) {
        let matrices: &[RowMajorMatrix<BabyBear>] = value.matrices();
        self.observe(&BabyBear::from_u64(matrices.len() as u64));
        observe_matrices(self, matrices);
    }
}
