//! That words and bytes have one answer: a law as the contract of a function that computes nothing.

ghost use Rattle.std.specs.Prelude.{ℕ, List};
ghost use Rattle.tool_run.specs.Uniqueness.{HasOneAnswer, NameOneCommand};
ghost use Rattle.stark_audit.specs.Answer.{audit_program};

use audit_batch::there_is_one_audit;
use p3_uni_stark::TranscriptVersion;
use tool_statement::{ToolConfig, tool_config};

/// Words name at most one command (`command`), and words and all the bytes of an input have at most one answer, one status and one text
/// (`answer`).
pub fn one_answer()
    ensures command { (words : List (List ℕ)) → NameOneCommand audit_program words }
    ensures answer { (words : List (List ℕ)) (bytes : List ℕ)
        → HasOneAnswer audit_program words bytes }
{
    let _first = tool_config(TranscriptVersion::V1);
    let _second = tool_config(TranscriptVersion::V2);
    there_is_one_audit::<ToolConfig>();
}
