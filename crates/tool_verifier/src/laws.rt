//! That a proof file has one answer: a law as the contract of a function that computes nothing.
ghost use Rattle.std.specs.Prelude.{List, ℕ};
ghost use Rattle.transcript_version.specs.declared.TranscriptVersion.{TranscriptVersion};
ghost use Rattle.tool_proof_text.specs.ProofText.{ToolProofData};
ghost use Rattle.tool_verifier.specs.FileAnswer.{IsFileAnswer, SameAnswer};
ghost use Rattle.tool_statement.specs.declared.table.TableStatement.{TableStatement};
ghost use Rattle.tool_verifier.specs.declared.status.Status.{Status};

use batch_config::Settings;
use p3_uni_stark::TranscriptVersion;
use tool_statement::{ToolConfig, tool_config};
use verifier_batch::meanings::there_is_one_verdict;

/// The version, the tables and the proof of a file have at most one answer: one status, and one text.
pub fn there_is_one_answer()
    ensures { (version : TranscriptVersion) (tables : List TableStatement) (p : ToolProofData)
        (s t : Status) (x y : List ℕ) → IsFileAnswer version tables p s x
        → IsFileAnswer version tables p t y → SameAnswer s t x y }
{
    let _first = tool_config(TranscriptVersion::V1);
    let _second = tool_config(TranscriptVersion::V2);
    there_is_one_verdict::<ToolConfig>();
}
