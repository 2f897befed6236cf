//! Cases of a job: its own proof over a configuration, and that proof with another grinding value.
ghost use Rattle.tool_jobs.specs.Jobs.{JobWithin, read_tables};

use crate::configs::config_of;
use crate::proved::{own_proof, said};
use air_core::{Air, BaseAir};
use batch_setup::{StarkInstance, TableInstance};
use p3_field::{BabyBear, Mem, PrimeCore64, RingCore};
use plain_pcs::PlainProverError;
use std::alloc::Global;
use tool_jobs::{JobTable, read_job, statements_of, traces_of};
use tool_statement::{ToolConfig, airs_of, public_values_of};

// The text of the job whose lines these words are.
fn text_of(alloc: Global, words: &[&str]) -> Mem<Vec<u8>> {
    let mut text = Vec::new(alloc);
    for word in words {
        text.extend_from_slice(word.as_bytes())?;
        text.push(b'\n')?;
    }
    Ok(text)
}

// The answer to a call on these tables and their proof: what the verifier says; before it the grinding values; or what it says where the second of these is 1.
fn answer_of<A: Air<BabyBear>>(
    alloc: Global,
    call: &str,
    config: &ToolConfig,
    instances: &[StarkInstance<'_, ToolConfig, A>],
    publics: &[Vec<BabyBear>],
) -> Mem<String> {
    let Some(mut own) = own_proof(alloc, config, instances)? else {
        return String::from_str(alloc, "no proof");
    };
    if call == "one" {
        own.proof.ood_pow_witness = BabyBear::ONE;
    }
    let said = said(alloc, config, instances, publics, &own)?;
    if call != "values" {
        return Ok(said);
    }
    let lookup = own.proof.lookup_pow_witness.map(|it| it.as_canonical_u64());
    let ood = own.proof.ood_pow_witness.as_canonical_u64();
    format!(in alloc; "{lookup:?} {ood} {said}")
}

// The answer to a call on the tables of a job.
fn job_answer(alloc: Global, call: &str, config: &ToolConfig, job: &[JobTable]) -> Mem<String>
    requires { JobWithin (read_tables job.now) }
{
    let tables = statements_of(alloc, job)?;
    let airs = airs_of(alloc, &tables)?;
    let traces = traces_of(alloc, job)?;
    let publics = public_values_of(alloc, &tables)?;
    match TableInstance::new_multiple::<PlainProverError>(alloc, &airs, &traces, &publics) {
        Ok(instances) => answer_of(alloc, call, config, &instances, &publics),
        Err(_) => String::from_str(alloc, "no instances"),
    }
}

/// The answer to a call on the job whose lines these words are, over the configuration of this name.
pub fn answer(alloc: Global, call: &str, config: &str, words: &[&str]) -> Mem<String> {
    let text = text_of(alloc, words)?;
    match read_job(alloc, &text) {
        Ok(job) => job_answer(alloc, call, &config_of(config), &job),
        Err(_) => String::from_str(alloc, "no job"),
    }
}
