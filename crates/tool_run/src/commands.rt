//! The commands of a program.

ghost use Rattle.std.specs.Prelude.{◌≡◌, List, ℕ, IfOk, map, string_bytes};
ghost use Rattle.tool_run.specs.Program.{AnswersOnly, Program, ReadsWords};

use p3_field::Mem;
use std::alloc::Global;
use tool_verifier::Answer;

/// The commands of a program (not in Plonky3): how words name one, and what it answers.
pub trait Commands: Sized + Drop {
    /// The program: its words, which commands read, their answers, and its text for other words.
    ghost program: { Program Self };

    /// The command that these words name, if they name one.
    fn from_words(words: &[String]) -> Option<Self>
        ensures { ReadsWords program (map string_bytes words.now) result };

    /// Whether the command reads the input.
    fn reads_input(&self) -> bool
        ensures { result ≡ program.reads self.now };

    /// What the command answers for all the bytes of an input, which are let go once they are read; for no bytes, where it reads none.
    /// The only error is running out of memory.
    fn answer(self, alloc: Global, bytes: Vec<u8>) -> Mem<Answer>
        ensures { IfOk result (λ a. program.answers self bytes.items a.status a.text.items) };

    /// The text for words that name no command.
    fn usage() -> &'static [u8]
        ensures { result.now ≡ program.usage };

    // A command's answer is that it did its work, refused its input, or found it to be no text of its grammar.
    ghost only: { AnswersOnly program };
}
