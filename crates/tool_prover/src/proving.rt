//! The honest proof of a balanced job.
ghost use Rattle.std.specs.Prelude.{◌≡◌, IfErr, IfOk, length, map};
ghost use Rattle.batch_setup.specs.Setup.{instances_of as paired};
ghost use Rattle.tool_jobs.specs.Jobs.{JobWithin, read_tables};
ghost use Rattle.tool_jobs.specs.Stated.{statements_for};
ghost use Rattle.tool_jobs.specs.Unbalanced.{same_word};
ghost use Rattle.law_tool_valid.specs.Job.{IsBalancedJob};
ghost use Rattle.tool_prover.specs.JobAnswer.{IsProvingOutcome, IsTold};

use crate::outside::is_outside;
use air_core::{Air, BaseAir};
use batch_config::Settings;
use batch_setup::{SetupError, StarkInstance, TableInstance};
use commit_core::UnivariateStarkPcs;
use p3_field::{BabyBear, FieldCore, Mem, QuarticExtension, RingCore, TwoAdicCore};
use p3_matrix::RowMajorMatrix;
use p3_uni_stark::TranscriptVersion;
use plain_pcs::PlainProverError;
use prover_answer::{ProverSettings, ProvingError};
use prover_batch::prove_batch_with_point;
use std::alloc::{AllocError, Global};
use tool_jobs::{JobTable, traces_of};
use tool_proof_text::ToolProof;
use tool_statement::{
    TableStatement, ToolConfig, airs_of, prover_data, public_values_of, tool_config,
};
use tool_tables::ToolAir;
use tool_verifier::accepted_means;

// The instances of as many AIRs, traces and lists of public values. The only error is running out of memory.
fn instances_of<'a>(
    alloc: Global,
    airs: &'a [ToolAir<BabyBear>],
    traces: &'a [RowMajorMatrix<BabyBear>],
    public_values: &[Vec<BabyBear>],
) -> Mem<Vec<StarkInstance<'a, ToolConfig, ToolAir<BabyBear>>>>
    requires traces { length traces.now ≡ length airs.now }
    requires public_values { length public_values.now ≡ length airs.now }
    ensures { IfOk result (λ v.
        v.items ≡ paired airs.now traces.now (map (λ p. p.items) public_values.now)) }
{
    match TableInstance::new_multiple::<PlainProverError>(alloc, airs, traces, public_values) {
        Ok(instances) => Ok(instances),
        Err(SetupError::OutOfMemory) => Err(AllocError),
        Err(SetupError::LengthMismatch) => unreachable!(),
        Err(SetupError::PreprocessedHeight { .. }) => unreachable!(),
        Err(SetupError::Pcs { .. }) => unreachable!(),
        Err(SetupError::LookupBudget { .. }) => unreachable!(),
    }
}

/// The honest proof of a balanced job over the program's configuration of this version, for which `verify` writes `accepted`; None where the point of its
/// openings lies on the rows of a table (`outcome`). The error says why there is no honest proof: no element passes a grinding, or a
/// denominator is zero; the backend never refuses, and no bus may carry too much (`refusal`). `tables` is what is stated of the job's
/// tables. Out of memory may come in place of any answer.
pub(crate) fn prove_job(
    alloc: Global,
    version: TranscriptVersion,
    job: &[JobTable],
    tables: &[TableStatement],
) -> Result<Option<ToolProof>, ProvingError<PlainProverError>>
    requires within { JobWithin (read_tables job.now) }
    requires balanced { IsBalancedJob same_word (read_tables job.now) }
    requires tables { tables.now ≡ statements_for (read_tables job.now) }
    ensures outcome { IfOk result (IsProvingOutcome version (read_tables job.now)) }
    ensures refusal { IfErr result (IsTold version (read_tables job.now)) }
{
    let config = tool_config(version);
    let airs = airs_of(alloc, tables)?;
    let data = prover_data(alloc, &config, tables, &airs)?;
    let traces = traces_of(alloc, job)?;
    let public_values = public_values_of(alloc, tables)?;
    let instances = instances_of(alloc, &airs, &traces, &public_values)?;
    let (proof, point) = prove_batch_with_point(alloc, &config, &instances, &data)?;
    if !is_outside(tables, point) {
        return Ok(None);
    }
    accepted_means(version, tables, &proof);
    Ok(Some(proof))
}
