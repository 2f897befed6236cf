//! The trees of commitments.

ghost use Rattle.std.specs.Prelude.{⊤};

use crate::matrices::MatrixForm;
use batch_statement::BatchCommitments;
use json_forms::{JsonForm, ListOf, ObjectReader, ObjectWriter, Present, TreeError};
use p3_field::{BabyBear, Mem};
use plain_pcs::PlainCommitment;
use serde_json::Value;
use std::alloc::Global;

/// At most 1024 matrices.
type Matrices = ListOf<MatrixForm, 0, 1024>;

/// The form of a commitment: a list of at most 1024 matrices.
pub struct CommitmentForm;

impl JsonForm for CommitmentForm {
    type Value = PlainCommitment<BabyBear>;

    ghost use Rattle.p3_field.specs.declared.baby_bear.BabyBear.{BabyBear as Element};
    ghost use Rattle.plain_pcs.specs.Scheme.{PlainCommitmentData};
    ghost use Rattle.tool_proof_text.specs.ProofText.{CommitmentWithin};
    ghost use Rattle.json_proof_files.specs.FileTrees.{commitment_tree};
    ghost use Rattle.json_proof_files.specs.FileReadings.{commitment_reading};
    ghost use Rattle.json_proof_files.specs.Laws.FileForms.{commitment-form};

    ghost Data = { PlainCommitmentData Element };

    ghost data_of = { λ c. c };

    ghost within = { CommitmentWithin };

    ghost tree = { commitment_tree };

    ghost reading = { commitment_reading };

    ghost allocates = { ⊤ };

    ghost form = { commitment-form };

    fn read(alloc: Global, json: &Value) -> Result<PlainCommitment<BabyBear>, TreeError> {
        let matrices = Matrices::read(alloc, json)?;
        let commitment = PlainCommitment::new(alloc, matrices)?;
        Ok(commitment)
    }

    fn write(alloc: Global, value: &PlainCommitment<BabyBear>) -> Mem<Value> {
        Matrices::write(alloc, value.matrices())
    }
}

impl Present for CommitmentForm {
    ghost use Rattle.std.specs.Prelude.{refl};

    ghost solid = { refl };
}

/// The form of a proof's commitments: an object of that to the main traces, that to the permutation traces, which may be absent, that to the
/// quotient chunks, and that to random polynomials, which may be absent.
pub struct CommitmentsForm;

impl JsonForm for CommitmentsForm {
    type Value = BatchCommitments<PlainCommitment<BabyBear>>;

    ghost use Rattle.p3_field.specs.declared.baby_bear.BabyBear.{BabyBear as Element};
    ghost use Rattle.plain_pcs.specs.Scheme.{PlainCommitmentData};
    ghost use Rattle.batch_statement.specs.declared.commitments.BatchCommitments.{BatchCommitments as Commitments};
    ghost use Rattle.tool_proof_text.specs.ProofText.{CommitmentsWithin};
    ghost use Rattle.json_proof_files.specs.FileTrees.{commitments_tree};
    ghost use Rattle.json_proof_files.specs.FileReadings.{commitments_reading};
    ghost use Rattle.json_proof_files.specs.Laws.FileForms.{commitments-form};

    ghost Data = { Commitments (PlainCommitmentData Element) };

    ghost data_of = { λ c. c };

    ghost within = { CommitmentsWithin };

    ghost tree = { commitments_tree };

    ghost reading = { commitments_reading };

    ghost allocates = { ⊤ };

    ghost form = { commitments-form };

    fn read(
        alloc: Global,
        json: &Value,
    ) -> Result<BatchCommitments<PlainCommitment<BabyBear>>, TreeError> {
        let mut members = ObjectReader::new(json)?;
        let main = members.read::<CommitmentForm>(alloc, "main")?;
        let permutation = members.read::<Option<CommitmentForm>>(alloc, "permutation")?;
        let quotient_chunks = members.read::<CommitmentForm>(alloc, "quotient_chunks")?;
        let random = members.read::<Option<CommitmentForm>>(alloc, "random")?;
        members.end()?;
        Ok(BatchCommitments {
            main,
            permutation,
            quotient_chunks,
            random,
        })
    }

    fn write(alloc: Global, value: &BatchCommitments<PlainCommitment<BabyBear>>) -> Mem<Value> {
        let mut members = ObjectWriter::new(alloc);
        members.write::<CommitmentForm>(alloc, "main", &value.main)?;
        members.write::<Option<CommitmentForm>>(alloc, "permutation", &value.permutation)?;
        members.write::<CommitmentForm>(alloc, "quotient_chunks", &value.quotient_chunks)?;
        members.write::<Option<CommitmentForm>>(alloc, "random", &value.random)?;
        Ok(members.end())
    }
}
