//! The program that explains proof files: `explain` prints each step of a file's transcript and each challenge that is drawn along it, and names every
//! check that fails, and not the first alone. What a run does with words, input and output is that of `tool_run`.
//!
//! The definitions that contracts cite are in `specs/`: the report on a file (`Explain`), and what a run answers (`Answer`).
#![tactic(auto)]

mod answers;
mod audited;
mod command;
mod exit;
mod heights;
mod laws;
mod lines;
mod report;
mod top;

pub use exit::run_explain_to_exit;
pub use laws::one_answer;
pub use report::explain;
pub use tool_bytes::{MemorySink, MemorySource, Sink, Source, StdSink, StdSource};
pub use tool_proof_files::{ProofFile, read_proof_file};
pub use tool_run::exit_code;
pub use tool_verifier::{Answer, Status};
pub use top::run_explain;
