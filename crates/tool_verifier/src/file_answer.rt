//! What `verify` answers for a proof file.
ghost use Rattle.std.specs.Prelude.{IfOk};
ghost use Rattle.tool_proof_files.specs.Files.{FileWithin, version_of};
ghost use Rattle.tool_verifier.specs.FileAnswer.{IsFileAnswer};

use crate::answer::{Answer, answer_tables};
use p3_field::Mem;
use std::alloc::Global;
use tool_proof_files::ProofFile;

/// What `verify` answers for this file (not in Plonky3), which is within its limits, all challenges being drawn from the transcript of its
/// version: `Refused` with `HeightMismatch` for the first table
/// whose stated height isn't the proof's, `Refused` with the first check of the batch verifier that fails, or `Done` with `accepted`. The
/// only error is running out of memory.
pub fn answer_verify(alloc: Global, file: &ProofFile) -> Mem<Answer>
    requires { FileWithin file.now }
    ensures { IfOk result (λ a.
        IsFileAnswer (version_of file.now.version) file.now.tables file.now.proof a.status
        a.text.items) }
{
    answer_tables(alloc, file.transcript_version(), &file.tables, &file.proof)
}
