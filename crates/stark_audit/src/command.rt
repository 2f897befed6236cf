//! The command that the program's words name, and what it answers.

use crate::answers::explain_answer;
use p3_field::Mem;
use std::alloc::Global;
use tool_run::Commands;
use tool_verifier::Answer;

const USAGE: &[u8] = b"usage: stark_audit explain\n";

/// What the program is to do (not in Plonky3).
#[derive(Drop)]
pub enum Command {
    /// `explain`: reads a proof file, and prints its steps and which checks fail.
    Explain,
}

impl Commands for Command {
    ghost use Rattle.stark_audit.specs.Answer.{audit_program};
    ghost use Rattle.stark_audit.specs.Laws.Statuses.{answers-only};

    ghost program = { audit_program };

    ghost only = { answers-only };

    fn from_words(words: &[String]) -> Option<Self> {
        match words {
            [word] if word.as_str() == "explain" => Some(Command::Explain),
            _ => None,
        }
    }

    fn reads_input(&self) -> bool {
        true
    }

    fn answer(self, alloc: Global, bytes: Vec<u8>) -> Mem<Answer> {
        match self {
            Command::Explain => explain_answer(alloc, bytes),
        }
    }

    fn usage() -> &'static [u8] {
        USAGE
    }
}
