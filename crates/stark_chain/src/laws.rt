//! That words and bytes have one answer: a law as the contract of a function that computes nothing.

ghost use Rattle.std.specs.Prelude.{ℕ, List};
ghost use Rattle.tool_run.specs.Uniqueness.{HasOneAnswer, NameOneCommand};
ghost use Rattle.stark_chain.specs.Answer.{chain_program};

use batch_config::Settings;
use tool_statement::{ToolConfig, tool_config};
use transcript_version::TranscriptVersion;
use verifier_batch::meanings::there_is_one_verdict;

/// Words name at most one command (`command`), and words and all the bytes of an input have at most one answer, one status and one text
/// (`answer`). So what `prove` writes is a function of the job.
pub fn one_answer()
    ensures command { (words : List (List ℕ)) → NameOneCommand chain_program words }
    ensures answer { (words : List (List ℕ)) (bytes : List ℕ)
        → HasOneAnswer chain_program words bytes }
{
    let _config = tool_config(TranscriptVersion::V2);
    there_is_one_verdict::<ToolConfig>();
}
