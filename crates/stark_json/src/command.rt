//! The commands that a program's words name, and what each answers.

use crate::answers::{from_json_answer, to_json_answer, verify_json_answer};
use p3_field::Mem;
use std::alloc::Global;
use tool_run::Commands;
use tool_verifier::Answer;

const USAGE: &[u8] = b"usage: stark_json to-json | from-json | verify-json\n";

/// What the program is to do (not in Plonky3).
#[derive(Drop)]
pub enum Command {
    /// `to-json`: reads a proof file, and writes its JSON.
    ToJson,
    /// `from-json`: reads the JSON of a proof file, and writes the file.
    FromJson,
    /// `verify-json`: reads the JSON of a proof file, and says whether its proof is accepted.
    VerifyJson,
}

impl Commands for Command {
    ghost use Rattle.stark_json.specs.Answer.{json_program};
    ghost use Rattle.stark_json.specs.Laws.Statuses.{answers-only};

    ghost program = { json_program };

    ghost only = { answers-only };

    fn from_words(words: &[String]) -> Option<Self> {
        match words {
            [word] if word.as_str() == "to-json" => Some(Command::ToJson),
            [word] if word.as_str() == "from-json" => Some(Command::FromJson),
            [word] if word.as_str() == "verify-json" => Some(Command::VerifyJson),
            _ => None,
        }
    }

    fn reads_input(&self) -> bool {
        true
    }

    fn answer(self, alloc: Global, bytes: Vec<u8>) -> Mem<Answer> {
        match self {
            Command::ToJson => to_json_answer(alloc, bytes),
            Command::FromJson => from_json_answer(alloc, bytes),
            Command::VerifyJson => verify_json_answer(alloc, bytes),
        }
    }

    fn usage() -> &'static [u8] {
        USAGE
    }
}
