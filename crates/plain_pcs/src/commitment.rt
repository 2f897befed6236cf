//! What the plain scheme gives: commitments, prover data and proofs.
ghost use Rattle.std.specs.Prelude.{◌≡◌, IfOk};

use p3_field::{Mem, TwoAdicCore, TwoAdicMultiplicativeCoset};
use p3_matrix::RowMajorMatrix;
use std::alloc::Global;
use std::marker::Model;
use std::rc::Rc;

/// A commitment of the plain scheme (not in Plonky3): per committed matrix the values of its columns' polynomials on the
/// coset whose shift is the field's GENERATOR, 2^`log_blowup` times as large as the matrix's domain; row i is at point i.
///
/// Copies of a commitment share its matrices.
#[derive(Drop)]
pub struct PlainCommitment<F> {
    // The extensions, in the order of the matrices.
    matrices: Rc<Vec<RowMajorMatrix<F>>>,
}

impl<F> Model for PlainCommitment<F> {
    ghost use Rattle.plain_pcs.specs.Scheme.{PlainCommitmentData};

    ghost Value = { PlainCommitmentData F };

    ghost view = { λ c. record { matrices = c.matrices.value.items } };
}

impl<F: Copy> PlainCommitment<F> {
    /// The commitment of these extensions.
    pub fn new(alloc: Global, matrices: Vec<RowMajorMatrix<F>>) -> Mem<Self>
        ensures { IfOk result (λ c. c ≡ record { matrices = matrices.items }) }
    {
        let matrices = Rc::new(alloc, matrices)?;
        Ok(PlainCommitment { matrices })
    }

    /// The extensions, in the order of the matrices.
    pub fn matrices(&self) -> &Vec<RowMajorMatrix<F>>
        ensures { result.now.items ≡ self.now.matrices }
    {
        &self.matrices
    }

    /// A commitment equal to this one, which shares its matrices: no value is copied, and no memory is taken.
    pub fn try_clone(&self) -> Mem<Self>
        ensures { IfOk result (λ c. c ≡ self.now) }
    {
        let matrices = self.matrices.clone()?;
        Ok(PlainCommitment { matrices })
    }
}

/// Matrices equal to these.
pub(crate) fn copied_matrices<F: Copy>(
    alloc: Global,
    matrices: &[RowMajorMatrix<F>],
) -> Mem<Vec<RowMajorMatrix<F>>>
    ensures { IfOk result (λ v. v.items ≡ matrices.now) }
{
    let mut copies = Vec::with_capacity(alloc, matrices.len())?;
    for matrix in matrices {
        copies.push(matrix.try_clone(alloc)?)?;
    }
    Ok(copies)
}

/// The plain scheme's prover data (not in Plonky3): the committed extensions, each with the coset of shift GENERATOR of its
/// height.
#[derive(Drop)]
pub struct PlainProverData<F: TwoAdicCore> {
    pub(crate) evaluated: Vec<(TwoAdicMultiplicativeCoset<F>, RowMajorMatrix<F>)>,
}

impl<F: TwoAdicCore> Model for PlainProverData<F> {
    ghost use Rattle.std.specs.Prelude.{List};
    ghost use Rattle.p3_field.specs.Domain.{CosetData};
    ghost use Rattle.p3_matrix.specs.Matrix.{Rows};

    ghost Value = { List (CosetData F × Rows F) };

    ghost view = { λ d. d.evaluated.items };
}

/// A proof of opened values (not in Plonky3). A verifier of the plain scheme has all that it needs in the commitment,
/// so there is nothing in it.
#[derive(Drop)]
pub struct PlainProof;
