//! The report on a proof file.

ghost use Rattle.std.specs.Prelude.{◌≡◌, All, IfOk};
ghost use Rattle.tool_proof_files.specs.Files.{FileWithin, version_of};
ghost use Rattle.tool_statement.specs.StatedTables.{TableWithin};
ghost use Rattle.stark_audit.specs.Explain.{DoneWhereAccepted, IsExplained, NamesRefusalElse};

use crate::audited::audit_tables;
use crate::heights::mismatched_heights;
use crate::lines::{push_count, push_faults, push_heights};
use audit_batch::BatchAudit;
use p3_field::Mem;
use p3_uni_stark::TranscriptVersion;
use std::alloc::{AllocError, Global};
use tool_proof_files::ProofFile;
use tool_proof_text::ToolProof;
use tool_statement::TableStatement;
use tool_verifier::{Answer, Status};

// How `explain` ends where so many things fail.
fn ended(count: usize) -> Status
    ensures none { count ≡ 0 → result ≡ Status.Done }
    ensures some { (count ≡ 0 → ⊥) → result ≡ Status.Refused }
{
    if count == 0 {
        Status::Done
    } else {
        Status::Refused
    }
}

// The report on a proof of these tables over the transcript of this version.
fn explain_tables(
    alloc: Global,
    version: TranscriptVersion,
    tables: &[TableStatement],
    proof: &ToolProof,
) -> Mem<Answer>
    requires { All TableWithin tables.now }
    ensures report { IfOk result
        (λ a. IsExplained version tables.now proof.now a.status a.text.items) }
    ensures accepted { IfOk result (λ a. DoneWhereAccepted version tables.now proof.now a.status) }
    ensures first { IfOk result
        (λ a. NamesRefusalElse version tables.now proof.now a.status a.text.items) }
{
    let heights = mismatched_heights(alloc, tables, &proof.degree_bits)?;
    let BatchAudit { steps, faults } = audit_tables(alloc, version, tables, proof)?;
    let Some(count) = heights.len().checked_add(faults.len()) else {
        return Err(AllocError);
    };
    let mut text = steps;
    push_heights(&mut text, &heights)?;
    push_faults(&mut text, &faults)?;
    push_count(&mut text, count)?;
    Ok(Answer {
        status: ended(count),
        text,
    })
}

/// The report on this file (not in Plonky3), which is within its limits. First each step of the transcript of its version, `step i label`, with
/// the coefficients of each challenge that is drawn, and `passes` or `fails` after a grinding value: where the proof's shape is right and the grinding value
/// that the lookups need is there, and else no step. Then a line `fails` with name and numbers for each table, below both lengths, whose stated height isn't
/// the proof's, and for each check of the batch verifier that is asked and fails. Last `failed n`, with their number.
///
/// The status is `Done` exactly where n is 0, which is where the file is accepted, and else `Refused`; the first `fails` line then names
/// `verify`'s refusal. The only error is running out of memory.
pub fn explain(alloc: Global, file: &ProofFile) -> Mem<Answer>
    requires { FileWithin file.now }
    ensures report { IfOk result
        (λ a. IsExplained (version_of file.now.version) file.now.tables file.now.proof a.status
        a.text.items) }
    ensures accepted { IfOk result
        (λ a. DoneWhereAccepted (version_of file.now.version) file.now.tables file.now.proof
        a.status) }
    ensures first { IfOk result
        (λ a. NamesRefusalElse (version_of file.now.version) file.now.tables file.now.proof a.status
        a.text.items) }
{
    explain_tables(alloc, file.transcript_version(), &file.tables, &file.proof)
}
