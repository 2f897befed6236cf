//! The commands that a program's words name, and what each answers.

use crate::answers::{balance_answer, file_answer, job_answer};
use p3_field::Mem;
use p3_uni_stark::TranscriptVersion;
use std::alloc::Global;
use tool_demo::{answer_demo, read_number};
use tool_run::Commands;
use tool_verifier::Answer;

const USAGE: &[u8] = b"usage: batch_tool prove [1] | verify | balance | demo N\n";

/// What the program is to do (not in Plonky3).
#[derive(Drop)]
pub enum Command {
    /// `prove` and `prove 1`: reads a job, and writes its proof over the transcript of version 2, or of version 1.
    Prove {
        /// The version of the transcript.
        version: TranscriptVersion,
    },
    /// `verify`: reads a proof file, and says whether its proof is accepted.
    Verify,
    /// `balance`: reads a proof file, and where its proof is accepted says whether what its tables send to each other balances.
    Balance,
    /// `demo N`: proves the job that the number stands for, and writes how many lines its proof file has. It reads nothing.
    Demo {
        /// The number N.
        number: u32,
    },
}

impl Commands for Command {
    ghost use Rattle.batch_tool.specs.Answer.{batch_program};
    ghost use Rattle.batch_tool.specs.Laws.Statuses.{answers-only};

    ghost program = { batch_program };

    ghost only = { answers-only };

    fn from_words(words: &[String]) -> Option<Self> {
        match words {
            [word] if word.as_str() == "prove" => Some(Command::Prove {
                version: TranscriptVersion::V2,
            }),
            [word] if word.as_str() == "verify" => Some(Command::Verify),
            [word] if word.as_str() == "balance" => Some(Command::Balance),
            [word, version] if word.as_str() == "prove" && version.as_str() == "1" => {
                Some(Command::Prove {
                    version: TranscriptVersion::V1,
                })
            }
            [word, number] if word.as_str() == "demo" => match read_number(number.as_str()) {
                Some(number) => Some(Command::Demo { number }),
                None => None,
            },
            _ => None,
        }
    }

    fn reads_input(&self) -> bool {
        match self {
            Command::Prove { .. } => true,
            Command::Verify => true,
            Command::Balance => true,
            Command::Demo { .. } => false,
        }
    }

    fn answer(self, alloc: Global, bytes: Vec<u8>) -> Mem<Answer> {
        match self {
            Command::Prove { version } => job_answer(alloc, version, bytes),
            Command::Verify => file_answer(alloc, bytes),
            Command::Balance => balance_answer(alloc, bytes),
            Command::Demo { number } => answer_demo(alloc, number),
        }
    }

    fn usage() -> &'static [u8] {
        USAGE
    }
}
