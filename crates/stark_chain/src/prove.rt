//! What `prove` answers.
ghost use Rattle.std.specs.Int.{IsPowerOfTwo};
ghost use Rattle.std.specs.Prelude.{◌≡◌, ◌≤◌, ◌^◌, [], IfOk, length};
ghost use Rattle.chain_proofs.specs.Statement.{IsAcceptedProof, IsChainRefusal};
ghost use Rattle.tool_verifier.specs.Refusals.{refused_text};
ghost use Rattle.stark_chain.specs.Answer.{IsJobAnswer};
ghost use Rattle.stark_chain.specs.Seen.{read_job};
ghost use Rattle.stark_chain.specs.Texts.{JobWithin};

use crate::file::{ChainFile, write_chain_file};
use crate::job::ChainJob;
use chain_air::{chain_end, chaining_fits};
use chain_proofs::{accepted_means, prove_chain};
use law_committed::fields::baby_bear_has_laws;
use p3_field::Mem;
use p3_matrix::log2_strict_usize;
use plain_pcs::PlainProverError;
use prover_answer::{GrindStep, ProvingError};
use std::alloc::{AllocError, Global};
use tool_proof_text::ToolProof;
use tool_verifier::{Answer, Status, refusal_line};

// The answer of a refusal with this name.
fn refused(alloc: Global, name: &[u8]) -> Mem<Answer>
    ensures status { IfOk result (λ a. a.status ≡ Status.Refused) }
    ensures text { IfOk result (λ a. a.text.items ≡ refused_text name.now []) }
{
    Ok(Answer {
        status: Status::Refused,
        text: refusal_line(alloc, name, &[])?,
    })
}

// The answer where no number passes this grinding of a job.
fn refused_grinding(alloc: Global, job: &ChainJob, step: GrindStep) -> Mem<Answer>
    requires { IsChainRefusal job.now.start job.now.blocks.items
        (ProvingError.WitnessNotFound step) }
    ensures { IfOk result (λ a. IsJobAnswer (read_job job.now) a.status a.text.items) }
{
    match step {
        GrindStep::Lookup => unreachable!(),
        GrindStep::Ood => refused(alloc, b"WitnessNotFound ood"),
    }
}

// The answer where a job has no proof.
fn refused_proof(
    alloc: Global,
    job: &ChainJob,
    error: ProvingError<PlainProverError>,
) -> Mem<Answer>
    requires { IsChainRefusal job.now.start job.now.blocks.items error }
    ensures { IfOk result (λ a. IsJobAnswer (read_job job.now) a.status a.text.items) }
{
    match error {
        ProvingError::WitnessNotFound { step } => refused_grinding(alloc, job, step),
        ProvingError::OutOfMemory => Err(AllocError),
        ProvingError::LookupDenominatorZero { .. } => unreachable!(),
        ProvingError::Pcs { .. } => unreachable!(),
        ProvingError::MultiplicityBound { .. } => unreachable!(),
    }
}

// The logarithm of the number of blocks, of which there are 1, 2, 4 or 8.
fn log_rows_of(blocks: &[[u32; 16]]) -> u8
    requires power { IsPowerOfTwo (length blocks.now) }
    requires few { length blocks.now ≤ 8 }
    ensures size { length blocks.now ≡ 2 ^ result }
    ensures few { result ≤ 3 }
{
    log2_strict_usize(blocks.len()) as u8
}

// The answer where a job has this honest proof, which the verifier accepts.
fn proved_answer(alloc: Global, job: &ChainJob, proof: ToolProof) -> Mem<Answer>
    requires within { JobWithin (read_job job.now) }
    requires proof { IsAcceptedProof job.now.start job.now.blocks.items proof }
    ensures { IfOk result (λ a. IsJobAnswer (read_job job.now) a.status a.text.items) }
{
    baby_bear_has_laws();
    let log_rows = log_rows_of(&job.blocks);
    let end = chain_end(job.start, &job.blocks);
    chaining_fits(&end);
    accepted_means(&job.start, &end, log_rows as usize, &proof);
    let file = ChainFile {
        log_rows,
        start: job.start,
        end,
        proof,
    };
    let text = write_chain_file(alloc, &file)?;
    Ok(Answer {
        status: Status::Done,
        text,
    })
}

/// What `prove` answers for a job within its limits (not in Plonky3), the first of: `Refused` with `WitnessNotFound ood`, where no number passes the
/// grinding before the point is drawn; `Refused` with `OodPointInDomain`, where the point that is drawn for the honest proof lies on the table's
/// rows; and `Done` with the text of the proof file that has the chaining value after the last block and the honest proof, for which `verify`
/// writes `accepted`. The only error is running out of memory.
pub fn answer_prove(alloc: Global, job: &ChainJob) -> Mem<Answer>
    requires { JobWithin (read_job job.now) }
    ensures { IfOk result (λ a. IsJobAnswer (read_job job.now) a.status a.text.items) }
{
    match prove_chain(alloc, &job.start, &job.blocks) {
        Ok(Some(proof)) => proved_answer(alloc, job, proof),
        Ok(None) => refused(alloc, b"OodPointInDomain"),
        Err(error) => refused_proof(alloc, job, error),
    }
}
