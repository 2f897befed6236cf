//! That a proof file has one answer: a law as the contract of a function that computes nothing.
ghost use Rattle.std.specs.Prelude.{List, ℕ};
ghost use Rattle.transcript_version.specs.declared.TranscriptVersion.{TranscriptVersion};
ghost use Rattle.tool_proof_text.specs.ProofText.{ToolProofData};
ghost use Rattle.tool_balance.specs.FileBalance.{IsFileBalance};
ghost use Rattle.tool_statement.specs.declared.table.TableStatement.{TableStatement};
ghost use Rattle.tool_verifier.specs.FileAnswer.{SameAnswer};
ghost use Rattle.tool_verifier.specs.declared.status.Status.{Status};

/// The version, the tables and the proof of a file have at most one answer of `balance`: one status, and one text.
pub fn there_is_one_answer()
    ensures { (version : TranscriptVersion) (tables : List TableStatement) (p : ToolProofData)
        (s t : Status) (x y : List ℕ) → IsFileBalance version tables p s x
        → IsFileBalance version tables p t y → SameAnswer s t x y }
{
    tool_verifier::there_is_one_answer();
}
