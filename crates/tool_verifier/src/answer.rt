//! What `verify` answers for a proof file.
ghost use Rattle.std.specs.Prelude.{◌≡◌, All, IfOk};
ghost use Rattle.tool_statement.specs.StatedTables.{TableWithin};
ghost use Rattle.tool_hash_lines.specs.PrintedRows.{HasHashMatrices};
ghost use Rattle.tool_verifier.specs.FileAnswer.{IsFileAnswer, accepted_text as text_of_accepted};

use crate::heights::first_mismatch;
use crate::refusal::{fault_line, mismatch_line};
use crate::status::Status;
use crate::tables::verify_tables;
use p3_field::Mem;
use p3_uni_stark::TranscriptVersion;
use std::alloc::Global;
use tool_hash_lines::hash_lines;
use tool_proof_text::ToolProof;
use tool_statement::TableStatement;

/// How a command ended, and the text that it writes (not in Plonky3).
#[derive(Drop)]
pub struct Answer {
    /// How it ended.
    pub status: Status,
    /// The text, of whole lines.
    pub text: Vec<u8>,
}

// The answer of a refusal with this line.
fn refused(text: Vec<u8>) -> Answer
    ensures status { result.status ≡ Status.Refused }
    ensures text { result.text ≡ text }
{
    Answer {
        status: Status::Refused,
        text,
    }
}

// The text where the proof is accepted: `accepted`, and the rows of hash tables.
fn accepted_text(alloc: Global, tables: &[TableStatement], proof: &ToolProof) -> Mem<Vec<u8>>
    requires { HasHashMatrices tables.now proof.now }
    ensures { IfOk result (λ v. v.items ≡ text_of_accepted tables.now proof.now) }
{
    let lines = hash_lines(alloc, tables, proof)?;
    let mut text = Vec::from_slice(alloc, b"accepted\n")?;
    text.extend_from_slice(&lines)?;
    Ok(text)
}

/// What `verify` answers for the proof of these tables over the transcript of this version (not in Plonky3), the first of: `Refused` with `HeightMismatch` for the first table,
/// below both lengths, whose degree bits in the proof aren't the stated logarithm of its height; `Refused` with the name and the numbers of the
/// first check of the batch verifier that fails; and `Done` with `accepted` and the rows of the hash tables. The only error is running out of
/// memory.
pub fn answer_tables(
    alloc: Global,
    version: TranscriptVersion,
    tables: &[TableStatement],
    proof: &ToolProof,
) -> Mem<Answer>
    requires { All TableWithin tables.now }
    ensures { IfOk result (λ a. IsFileAnswer version tables.now proof.now a.status a.text.items) }
{
    if let Some(table) = first_mismatch(tables, &proof.degree_bits) {
        return Ok(refused(mismatch_line(alloc, table)?));
    }
    match verify_tables(alloc, version, tables, proof) {
        Ok(()) => Ok(Answer {
            status: Status::Done,
            text: accepted_text(alloc, tables, proof)?,
        }),
        Err(error) => Ok(refused(fault_line(alloc, &error)?)),
    }
}
