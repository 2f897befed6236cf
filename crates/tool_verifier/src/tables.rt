//! Whether a proof of stated tables is accepted.
ghost use Rattle.std.specs.Prelude.{All, IfOk};
ghost use Rattle.batch_statement.specs.Verdict.{IsVerdict};
ghost use Rattle.verifier_batch.specs.BatchChecks.{checks};
ghost use Rattle.law_soundness.specs.Meaning.{HoldUnlessUnlucky};
ghost use Rattle.tool_verifier.specs.FileAnswer.{FewAreUnlucky, PrintCompressions, SwapsEnd, SwapsEndByBits, TablesBalance};
ghost use Rattle.tool_statement.specs.StatedTables.{HaveStatedHeights, TableWithin, tool_statement};
ghost use Rattle.tool_hash_lines.specs.PrintedRows.{HasHashMatrices};
ghost use Rattle.tool_statement.specs.Config.{tool_backend, tool_setting};

use crate::meaning::accepted_means;
use air_core::{Air, BaseAir};
use batch_config::Settings;
use batch_statement::BatchVerificationError;
use p3_uni_stark::TranscriptVersion;
use plain_pcs::PlainError;
use std::alloc::Global;
use tool_proof_text::ToolProof;
use tool_statement::{TableStatement, airs_of, public_values_of, shared_data, tool_config};
use verifier_batch::verify_batch;

/// Whether a proof is accepted over the program's configuration of this version for these tables (not in Plonky3): Ok exactly where no check of the batch verifier
/// fails, and else the refusal of the first that does, with its fields (`verdict`). The data that prover and verifier share is made of the
/// tables again. Out of memory may come in place of any answer.
///
/// Where it is Ok, every constraint of every table is zero on each row of the committed polynomials, or the drawn alpha or the drawn zeta is
/// unlucky (`holds`); what the tables send to each other balances in the field, or one of these or the drawn lookup pair is unlucky (`balance`); and where neither
/// alpha nor zeta is, with the stated heights each swap table's last right cell is its second value in a table that is stated to have one row, and else its
/// first (`swaps`; `ends` says it by the proof's degree bits, whatever heights are stated), and each row of a hash table is printed as a compression (`hashes`). Few challenges are unlucky for the committed tables
/// (`few`). With these heights the matrices of hash
/// tables are as large as is stated (`matrices`).
pub fn verify_tables(
    alloc: Global,
    version: TranscriptVersion,
    tables: &[TableStatement],
    proof: &ToolProof,
) -> Result<(), BatchVerificationError<PlainError>>
    requires { All TableWithin tables.now }
    ensures verdict { IsVerdict
        (checks (tool_setting version) tool_backend (tool_statement tables.now) proof.now) result }
    ensures holds { IfOk result
        (λ _. HoldUnlessUnlucky (tool_setting version) 1 (tool_statement tables.now) proof.now) }
    ensures balance { IfOk result (λ _. TablesBalance version tables.now proof.now) }
    ensures ends { IfOk result (λ _. SwapsEndByBits version tables.now proof.now) }
    ensures swaps { IfOk result
        (λ _. HaveStatedHeights tables.now proof.now.degree_bits
        → SwapsEnd version tables.now proof.now) }
    ensures hashes { IfOk result
        (λ _. HaveStatedHeights tables.now proof.now.degree_bits
        → PrintCompressions version tables.now proof.now) }
    ensures few { IfOk result (λ _. FewAreUnlucky version tables.now proof.now) }
    ensures matrices { IfOk result
        (λ _. HaveStatedHeights tables.now proof.now.degree_bits
        → HasHashMatrices tables.now proof.now) }
{
    let config = tool_config(version);
    let airs = airs_of(alloc, tables)?;
    let public_values = public_values_of(alloc, tables)?;
    let common = shared_data(alloc, &config, tables, &airs)?;
    verify_batch(alloc, &config, &airs, proof, &public_values, &common)?;
    accepted_means(version, tables, proof);
    Ok(())
}
