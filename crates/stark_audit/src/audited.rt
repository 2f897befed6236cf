//! The checks of stated tables' proof over the program's configuration.

ghost use Rattle.std.specs.Prelude.{All, IfOk};
ghost use Rattle.audit_batch.specs.Asked.{AreNamed};
ghost use Rattle.audit_batch.specs.Audit.{audit};
ghost use Rattle.audit_batch.specs.Report.{IsPlayedText};
ghost use Rattle.tool_statement.specs.Config.{tool_backend, tool_setting};
ghost use Rattle.tool_statement.specs.StatedTables.{TableWithin, tool_statement};
ghost use Rattle.stark_audit.specs.Explain.{coefficient_numbers};

use air_core::{Air, BaseAir};
use audit_batch::{BatchAudit, audit_batch};
use batch_config::Settings;
use p3_field::Mem;
use p3_uni_stark::TranscriptVersion;
use plain_pcs::PlainError;
use std::alloc::Global;
use tool_proof_text::ToolProof;
use tool_statement::{TableStatement, airs_of, public_values_of, shared_data, tool_config};

/// The steps of the transcript of this version, and all checks of the batch verifier that fail, over the data that is made of the tables again. The only
/// error is running out of memory.
pub(crate) fn audit_tables(
    alloc: Global,
    version: TranscriptVersion,
    tables: &[TableStatement],
    proof: &ToolProof,
) -> Mem<BatchAudit<PlainError>>
    requires { All TableWithin tables.now }
    ensures steps { IfOk result
        (λ a. IsPlayedText (tool_setting version) tool_backend (tool_statement tables.now) proof.now
        coefficient_numbers a.steps.items) }
    ensures faults { IfOk result
        (λ a. AreNamed (audit (tool_setting version) tool_backend (tool_statement tables.now)
        proof.now) a.faults.items) }
{
    let config = tool_config(version);
    let airs = airs_of(alloc, tables)?;
    let public_values = public_values_of(alloc, tables)?;
    let common = shared_data(alloc, &config, tables, &airs)?;
    audit_batch(alloc, &config, &airs, proof, &public_values, &common)
}
