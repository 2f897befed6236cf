//! That a number has one answer: a law as the contract of a function that computes nothing.
ghost use Rattle.std.specs.Prelude.{List, ℕ};
ghost use Rattle.tool_demo.specs.DemoAnswer.{IsDemoAnswer};
ghost use Rattle.tool_verifier.specs.FileAnswer.{SameAnswer};
ghost use Rattle.tool_verifier.specs.declared.status.Status.{Status};

/// A number has at most one answer: one status, and one text.
pub fn there_is_one_answer()
    ensures { (number : ℕ) (s t : Status) (x y : List ℕ)
        → IsDemoAnswer number s x → IsDemoAnswer number t y → SameAnswer s t x y }
{
    tool_prover::there_is_one_answer();
}
