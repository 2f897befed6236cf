//! What `prove` answers for a job.
ghost use Rattle.std.specs.Prelude.{◌≡◌, IfOk, Some};
ghost use Rattle.tool_jobs.specs.Jobs.{JobWithin, read_tables};
ghost use Rattle.tool_jobs.specs.Stated.{statements_for};
ghost use Rattle.tool_jobs.specs.Unbalanced.{same_word};
ghost use Rattle.law_tool_valid.specs.Job.{IsBalancedJob};
ghost use Rattle.tool_verifier.specs.Refusals.{refused_text};
ghost use Rattle.tool_prover.specs.JobAnswer.{IsJobAnswer, IsProvingOutcome, IsTold};

use crate::proving::prove_job;
use p3_field::{Mem, PrimeCore64};
use p3_uni_stark::TranscriptVersion;
use plain_pcs::PlainProverError;
use prover_answer::{GrindStep, ProvingError};
use std::alloc::{AllocError, Global};
use tool_jobs::{JobTable, first_unbalanced, statements_of};
use tool_proof_files::{ProofFile, version_number, write_proof_file};
use tool_proof_text::ToolProof;
use tool_statement::TableStatement;
use tool_verifier::{Answer, Status, refusal_line};

// The answer of a refusal with this name and these numbers.
fn refused(alloc: Global, name: &[u8], numbers: &[usize]) -> Mem<Answer>
    ensures status { IfOk result (λ a. a.status ≡ Status.Refused) }
    ensures text { IfOk result (λ a. a.text.items ≡ refused_text name.now numbers.now) }
{
    Ok(Answer {
        status: Status::Refused,
        text: refusal_line(alloc, name, numbers)?,
    })
}

// The answer where no number passes this grinding of a balanced job.
fn refused_grinding(
    alloc: Global,
    version: TranscriptVersion,
    job: &[JobTable],
    step: GrindStep,
) -> Mem<Answer>
    requires balanced { IsBalancedJob same_word (read_tables job.now) }
    requires told { IsTold version (read_tables job.now) (ProvingError.WitnessNotFound step) }
    ensures { IfOk result (λ a. IsJobAnswer version (read_tables job.now) a.status a.text.items) }
{
    match step {
        GrindStep::Lookup => refused(alloc, b"WitnessNotFound lookup", &[]),
        GrindStep::Ood => refused(alloc, b"WitnessNotFound ood", &[]),
    }
}

// The answer where a balanced job has no proof.
fn refused_proof(
    alloc: Global,
    version: TranscriptVersion,
    job: &[JobTable],
    error: ProvingError<PlainProverError>,
) -> Mem<Answer>
    requires balanced { IsBalancedJob same_word (read_tables job.now) }
    requires told { IsTold version (read_tables job.now) error }
    ensures { IfOk result (λ a. IsJobAnswer version (read_tables job.now) a.status a.text.items) }
{
    match error {
        ProvingError::WitnessNotFound { step } => refused_grinding(alloc, version, job, step),
        ProvingError::LookupDenominatorZero { instance, row } => {
            refused(alloc, b"LookupDenominatorZero", &[instance, row])
        }
        ProvingError::OutOfMemory => Err(AllocError),
        ProvingError::Pcs { .. } => unreachable!(),
        ProvingError::MultiplicityBound { .. } => unreachable!(),
    }
}

// The answer where a balanced job has this honest proof, whose point lies on the rows of no table.
fn proved_answer(
    alloc: Global,
    version: TranscriptVersion,
    job: &[JobTable],
    tables: Vec<TableStatement>,
    proof: ToolProof,
) -> Mem<Answer>
    requires within { JobWithin (read_tables job.now) }
    requires balanced { IsBalancedJob same_word (read_tables job.now) }
    requires tables { tables.items ≡ statements_for (read_tables job.now) }
    requires outcome { IsProvingOutcome version (read_tables job.now) (Some proof) }
    ensures { IfOk result (λ a. IsJobAnswer version (read_tables job.now) a.status a.text.items) }
{
    let file = ProofFile {
        version: version_number(version),
        tables,
        proof,
    };
    let text = write_proof_file(alloc, &file)?;
    Ok(Answer {
        status: Status::Done,
        text,
    })
}

/// What `prove` answers for a job over the transcript of this version (not in Plonky3), which is within its limits, the first of: `Refused` with `Unbalanced` and the least
/// value that isn't taken as often as it is given; of a balanced job `Refused` with `WitnessNotFound lookup`, `LookupDenominatorZero`
/// with the table and the row, or `WitnessNotFound ood`, where one of these events comes on the challenges that are drawn; `Refused` with
/// `OodPointInDomain`, where the drawn point lies on the rows of a table; and `Done` with the text of the job's honest proof, for which
/// `verify` writes `accepted`. The only error is running out of memory.
pub fn answer_prove(alloc: Global, version: TranscriptVersion, job: &[JobTable]) -> Mem<Answer>
    requires { JobWithin (read_tables job.now) }
    ensures { IfOk result (λ a. IsJobAnswer version (read_tables job.now) a.status a.text.items) }
{
    if let Some(word) = first_unbalanced(alloc, job)? {
        return refused(alloc, b"Unbalanced", &[word.as_canonical_u64() as usize]);
    }
    let tables = statements_of(alloc, job)?;
    match prove_job(alloc, version, job, &tables) {
        Ok(Some(proof)) => proved_answer(alloc, version, job, tables, proof),
        Ok(None) => refused(alloc, b"OodPointInDomain", &[]),
        Err(error) => refused_proof(alloc, version, job, error),
    }
}
