//! Verifying a proof of a chain.
ghost use Rattle.std.specs.Prelude.{◌≤◌, ◌↔◌, IfOk, IsTrue};
ghost use Rattle.batch_statement.specs.Verdict.{IsVerdict};
ghost use Rattle.verifier_batch.specs.BatchChecks.{checks};
ghost use Rattle.transcript_version.specs.declared.TranscriptVersion.TheVariants.{V2};
ghost use Rattle.tool_statement.specs.Config.{tool_backend, tool_setting};
ghost use Rattle.chain_proofs.specs.Statement.{HasStatedHeight, RowsAreChain, chain_statement};

use crate::meaning::accepted_means;
use air_core::{Air, BaseAir};
use batch_statement::BatchVerificationError;
use chain_air::{ChainAir, chain_publics};
use p3_field::{BabyBear, FieldCore, RingCore};
use plain_pcs::PlainError;
use std::alloc::Global;
use tool_airs::verify_airs;
use tool_proof_text::ToolProof;

/// Whether the degree bits of a proof's first table, where it has any, are the stated logarithm of the rows (not in Plonky3): the verifier takes any
/// height. Nothing is allocated.
pub fn has_stated_height(log_rows: usize, proof: &ToolProof) -> bool
    ensures { IsTrue result ↔ HasStatedHeight log_rows proof.now.degree_bits }
{
    match proof.degree_bits.get(0) {
        Some(bits) => *bits == log_rows,
        None => true,
    }
}

/// Whether a proof that 2^`log_rows` compressions, at most 8, lead from `start` to `end` is accepted (not in Plonky3): Ok exactly where no check of the
/// batch verifier fails, and else the refusal of the first that does (`verdict`). The verifier takes the height that the proof states: that it is
/// the stated one, where it states any, is asked for here (`height`), and [`has_stated_height`] is the test. Out of memory may come in place of any answer.
///
/// Where it is Ok, the rows that the proof commits to are those of such compressions, unless the drawn alpha or the drawn zeta is unlucky (`chain`).
pub fn verify_chain(
    alloc: Global,
    start: &[u32; 8],
    end: &[u32; 8],
    log_rows: usize,
    proof: &ToolProof,
) -> Result<(), BatchVerificationError<PlainError>>
    requires rows { log_rows ≤ 3 }
    requires height { HasStatedHeight log_rows proof.now.degree_bits }
    ensures verdict { IsVerdict
        (checks (tool_setting V2) tool_backend (chain_statement start.now end.now log_rows)
        proof.now) result }
    ensures chain { IfOk result (λ _. RowsAreChain start.now end.now log_rows proof.now) }
{
    let public_values = [chain_publics(alloc, start, end)?];
    verify_airs(alloc, &[ChainAir {}], &[log_rows], proof, &public_values)?;
    accepted_means(start, end, log_rows, proof);
    Ok(())
}
