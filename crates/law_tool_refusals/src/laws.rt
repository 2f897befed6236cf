//! Which refusals never come from the program's `verify`: a law as the contract of a function that computes nothing.
ghost use Rattle.std.specs.Prelude.{All, List, length, ℕ, ◌≤◌};
ghost use Rattle.batch_statement.specs.declared.error.BatchVerificationError.{BatchVerificationError};
ghost use Rattle.transcript_version.specs.declared.TranscriptVersion.{TranscriptVersion};
ghost use Rattle.batch_tool.specs.Answer.{IsAnswer, IsBalanceAnswer, IsVerifyAnswer};
ghost use Rattle.verifier_batch.specs.BatchChecks.{FirstFault};
ghost use Rattle.plain_pcs.specs.declared.error.PlainError.{PlainError};
ghost use Rattle.tool_proof_text.specs.ProofText.{ToolProofData};
ghost use Rattle.law_tool_refusals.specs.Lines.{IsPossibleLine};
ghost use Rattle.law_tool_refusals.specs.Possible.{MayCome};
ghost use Rattle.tool_statement.specs.Config.{tool_backend, tool_setting};
ghost use Rattle.tool_statement.specs.StatedTables.{HaveStatedHeights, TableWithin, tool_statement};
ghost use Rattle.tool_statement.specs.declared.table.TableStatement.{TableStatement};
ghost use Rattle.tool_verifier.specs.Refusals.{fault_text};
ghost use Rattle.tool_verifier.specs.declared.status.Status.TheVariants.{Refused};

/// Over the transcript of either version, of tables within a proof file's limits and of any proof with their heights, the first check that fails is refused with what `MayCome` says (`fault`): not
/// for its degree bits, the domain of a quotient, the bound on multiplicities, the number of public values, a grinding value where there are no bits, the
/// heights of preprocessed traces, or a periodic column. So the line with which `verify` refuses bytes names a table of another height than is stated, or a
/// refusal that may come (`line`), and so does that of `balance` (`balance`). No command, for any words and bytes, answers with the line of another (`never`).
pub fn verify_refuses_only_so()
    ensures fault { (version : TranscriptVersion) (tables : List TableStatement) (p : ToolProofData)
        (e : BatchVerificationError PlainError) → All TableWithin tables → length tables ≤ 8
        → HaveStatedHeights tables p.degree_bits
        → FirstFault (tool_setting version) tool_backend (tool_statement tables) p e → MayCome e }
    ensures line { (bytes text : List ℕ) → IsVerifyAnswer bytes Refused text → IsPossibleLine text }
    ensures balance { (bytes text : List ℕ) → IsBalanceAnswer bytes Refused text
        → IsPossibleLine text }
    ensures never { (words : List (List ℕ)) (bytes : List ℕ) (e : BatchVerificationError PlainError)
        → (MayCome e → ⊥) → IsAnswer words bytes Refused (fault_text e) → ⊥ }
{}
