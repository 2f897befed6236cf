//! The commands that the program's words name, and what each answers.
use crate::answers::{file_answer, job_answer};
use p3_field::Mem;
use std::alloc::Global;
use tool_run::Commands;
use tool_verifier::Answer;

const USAGE: &[u8] = b"usage: stark_chain prove | verify\n";

/// What the program is to do (not in Plonky3).
#[derive(Drop)]
pub enum ChainCommand {
    /// `prove`: reads a job, and writes its proof file.
    Prove,
    /// `verify`: reads a proof file, and says whether its proof is accepted.
    Verify,
}

impl Commands for ChainCommand {
    ghost use Rattle.stark_chain.specs.Answer.{chain_program};
    ghost use Rattle.stark_chain.specs.Laws.Statuses.{answers-only};

    ghost program = { chain_program };

    ghost only = { answers-only };

    fn from_words(words: &[String]) -> Option<Self> {
        match words {
            [word] if word.as_str() == "prove" => Some(ChainCommand::Prove),
            [word] if word.as_str() == "verify" => Some(ChainCommand::Verify),
            _ => None,
        }
    }

    fn reads_input(&self) -> bool {
        true
    }

    fn answer(self, alloc: Global, bytes: Vec<u8>) -> Mem<Answer> {
        match self {
            ChainCommand::Prove => job_answer(alloc, bytes),
            ChainCommand::Verify => file_answer(alloc, bytes),
        }
    }

    fn usage() -> &'static [u8] {
        USAGE
    }
}
