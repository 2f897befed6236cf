//! The texts of commitments.

use crate::matrices::MatrixText;
use batch_statement::BatchCommitments;
use p3_field::{BabyBear, Mem};
use plain_pcs::PlainCommitment;
use std::alloc::Global;
use tool_lines::{Form, ItemError, ListOf, Reader};

/// At most 1024 matrices.
type MatricesText = ListOf<MatrixText, 1024>;

/// The form of a commitment's text (not in Plonky3): a list of at most 1024 matrices.
pub struct CommitmentText;

impl Form for CommitmentText {
    type Value = PlainCommitment<BabyBear>;

    ghost use Rattle.p3_field.specs.declared.baby_bear.BabyBear.{BabyBear as Element};
    ghost use Rattle.plain_pcs.specs.Scheme.{PlainCommitmentData};
    ghost use Rattle.tool_proof_text.specs.ProofText.{CommitmentWithin, commitment_numbers};
    ghost use Rattle.tool_proof_text.specs.Laws.Commitments.{commitment-grammar};

    ghost Data = { PlainCommitmentData Element };

    ghost data_of = { λ c. c };

    ghost within = { CommitmentWithin };

    ghost numbers = { commitment_numbers };

    ghost grammar = { commitment-grammar };

    fn read(alloc: Global, reader: &mut Reader) -> Result<PlainCommitment<BabyBear>, ItemError> {
        let matrices = MatricesText::read(alloc, reader)?;
        let commitment = PlainCommitment::new(alloc, matrices)?;
        Ok(commitment)
    }

    fn print(value: &PlainCommitment<BabyBear>, out: &mut Vec<u8>) -> Mem<()> {
        MatricesText::print(value.matrices(), out)?;
        Ok(())
    }
}

/// The form of the text of a proof's commitments (not in Plonky3): that to the main traces, that to the permutation traces,
/// which may be absent, that to the quotient chunks, and that to random polynomials, which may be absent.
pub struct CommitmentsText;

impl Form for CommitmentsText {
    type Value = BatchCommitments<PlainCommitment<BabyBear>>;

    ghost use Rattle.p3_field.specs.declared.baby_bear.BabyBear.{BabyBear as Element};
    ghost use Rattle.plain_pcs.specs.Scheme.{PlainCommitmentData};
    ghost use Rattle.batch_statement.specs.declared.commitments.BatchCommitments.{BatchCommitments as Commitments};
    ghost use Rattle.tool_proof_text.specs.ProofText.{CommitmentsWithin, commitments_numbers};
    ghost use Rattle.tool_proof_text.specs.Laws.Commitments.{commitments-grammar};

    ghost Data = { Commitments (PlainCommitmentData Element) };

    ghost data_of = { λ c. c };

    ghost within = { CommitmentsWithin };

    ghost numbers = { commitments_numbers };

    ghost grammar = { commitments-grammar };

    fn read(
        alloc: Global,
        reader: &mut Reader,
    ) -> Result<BatchCommitments<PlainCommitment<BabyBear>>, ItemError> {
        let main = CommitmentText::read(alloc, reader)?;
        let permutation = Option::<CommitmentText>::read(alloc, reader)?;
        let quotient_chunks = CommitmentText::read(alloc, reader)?;
        let random = Option::<CommitmentText>::read(alloc, reader)?;
        Ok(BatchCommitments {
            main,
            permutation,
            quotient_chunks,
            random,
        })
    }

    fn print(value: &BatchCommitments<PlainCommitment<BabyBear>>, out: &mut Vec<u8>) -> Mem<()> {
        CommitmentText::print(&value.main, out)?;
        Option::<CommitmentText>::print(&value.permutation, out)?;
        CommitmentText::print(&value.quotient_chunks, out)?;
        Option::<CommitmentText>::print(&value.random, out)?;
        Ok(())
    }
}
