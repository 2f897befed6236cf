//! That there is one answer, and what the transcript of a batch is played by: laws as the contracts of functions that compute nothing.

ghost use Rattle.std.specs.Prelude.{ℕ, List};
ghost use Rattle.batch_transcript.specs.BatchScript.{BatchShapeData};
ghost use Rattle.batch_tool.specs.Played.{BatchGiven, PlaysByElements};
ghost use Rattle.batch_tool.specs.Uniqueness.{HasOneAnswer};

/// Words and all the bytes of an input have at most one answer: one status, and one text.
pub fn one_answer()
    ensures { (words : List (List ℕ)) (bytes : List ℕ) → HasOneAnswer words bytes }
{
    tool_prover::there_is_one_answer();
    tool_verifier::there_is_one_answer();
    tool_balance::there_is_one_answer();
    tool_demo::there_is_one_answer();
}

/// The transcript of a batch, whatever its shape and whatever statement and proof give to its steps, is played by base elements alone:
/// each step by what its value is observed as, and a challenge by four draws.
pub fn one_transcript()
    ensures { (shape : BatchShapeData) (given : BatchGiven) → PlaysByElements shape given }
{}
