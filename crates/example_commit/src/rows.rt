//! A caller of any scheme that commits to matrices: it commits to one, opens a row and verifies the opening.
ghost use Rattle.std.specs.Prelude.{◌≡◌, ◌<◌, ◌↔◌, [], ◌∷◌, IfOk, IsTrue};
ghost use Rattle.std.specs.Int.{IsPowerOfTwo};
ghost use Rattle.p3_matrix.specs.Matrix.{Rows, height, row_at};
ghost use Rattle.commit_rows.specs.Batches.{lists, dimensions_of};

use commit_core::PcsFailure;
use commit_rows::{BatchOpening, BatchOpeningRef, Mmcs};
use p3_field::Mem;
use p3_matrix::{Dimensions, RowMajorMatrix};
use std::alloc::Global;

/// A row opened of a committed matrix, and what the verifier said of it (not in Plonky3).
#[derive(Drop)]
pub struct OpenedRow<T: Copy + Eq, M: Mmcs<T>> {
    /// The commitment to the matrix.
    pub commitment: M::Commitment,
    /// The row, with the proof.
    pub opening: BatchOpening<T, M>,
    /// Whether the verifier accepts that it is the row with the claimed number.
    pub accepted: bool,
}

/// Commits to a matrix, opens the row with the number `index`, and verifies that it is the row with the number `claimed`
/// (not in Plonky3). `accepted` is true exactly where the proof shows it, and so where the numbers are equal. The only
/// error is running out of memory.
pub fn committed_and_opened<T: Copy + Eq, M: Mmcs<T>>(
    alloc: Global,
    mmcs: &M,
    matrix: RowMajorMatrix<T>,
    index: usize,
    claimed: usize,
) -> Mem<OpenedRow<T, M>>
    requires power { IsPowerOfTwo (height matrix) }
    requires width { M.takes matrix.width }
    requires index { index < height matrix }
    ensures committed { IfOk result
        (λ w. (d : M.ProverData) × (M.matrices d ≡ matrix ∷ [])
        × M.belongs mmcs.now d w.commitment) }
    ensures row { IfOk result
        (λ w. lists w.opening.opened_values.items ≡ row_at matrix index ∷ []) }
    ensures verdict { IfOk result
        (λ w. IsTrue w.accepted ↔ M.opens mmcs.now w.commitment (dimensions_of (matrix ∷ []))
        claimed (lists w.opening.opened_values.items) w.opening.opening_proof) }
    ensures accepted { claimed ≡ index → IfOk result (λ w. IsTrue w.accepted) }
{
    let dimensions = Dimensions {
        width: matrix.width(),
        height: matrix.height(),
    };
    let (commitment, prover_data) = mmcs.commit_matrix(alloc, matrix)?;
    let opening = mmcs.open_batch(alloc, index, &prover_data)?;
    let borrowed = BatchOpeningRef::from(&opening);
    let accepted = match mmcs.verify_batch(alloc, &commitment, &[dimensions], claimed, borrowed) {
        Ok(()) => true,
        Err(PcsFailure::Refused(_)) => false,
        Err(PcsFailure::OutOfMemory) => return Err(std::alloc::AllocError),
    };
    Ok(OpenedRow {
        commitment,
        opening,
        accepted,
    })
}
