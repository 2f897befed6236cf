//! That words and bytes have one answer, and texts with one reading too: laws as the contracts of functions that compute nothing.

ghost use Rattle.std.specs.Prelude.{ℕ, List};
ghost use Rattle.tool_run.specs.Uniqueness.{HasOneAnswer, NameOneCommand};
ghost use Rattle.stark_json.specs.Answer.{IsFromJsonAnswer, IsVerifyJsonAnswer, json_program};
ghost use Rattle.stark_json.specs.Readings.{ByReading};

/// Two texts of JSON with one reading have one answer, of `from-json` and of `verify-json`: white space, the order of keys and what stands
/// before the last value of a key don't matter.
pub fn one_reading()
    ensures from { ByReading IsFromJsonAnswer }
    ensures verify { ByReading IsVerifyJsonAnswer }
{}

/// Words name at most one command (`command`), and words and all the bytes of an input have at most one answer, one status and one text
/// (`answer`).
pub fn one_answer()
    ensures command { (words : List (List ℕ)) → NameOneCommand json_program words }
    ensures answer { (words : List (List ℕ)) (bytes : List ℕ)
        → HasOneAnswer json_program words bytes }
{
    tool_verifier::there_is_one_answer();
}
