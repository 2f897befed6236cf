//! The program's commands and its top call, over the crates that read, prove and verify: `prove` answers a job's text by `tool_jobs` and
//! `tool_prover`, `verify` and `balance` a proof file by `tool_proof_files`, and `tool_verifier` or `tool_balance`, and `demo N` the job of a number by `tool_demo`. What a run
//! does with words, input and output is that of `tool_run`.
#![tactic(auto)]

mod answers;
mod command;
mod exit;
mod laws;
mod top;

pub use exit::run_to_exit;
pub use laws::{one_answer, one_transcript};
pub use tool_balance::answer_balance;
pub use tool_bytes::{
    Failed, InputError, MAX_BYTES, MemorySink, MemorySource, Sink, Source, StdSink, StdSource,
    read_whole, write_whole,
};
pub use tool_ends::{EndlessSource, NullSink, SteadySource};
pub use tool_jobs::{GivenWord, JobTable, read_job, write_job};
pub use tool_lines::TextError;
pub use tool_proof_files::{ProofFile, read_proof_file, write_proof_file};
pub use tool_proof_text::{read_proof_part, write_proof_part};
pub use tool_prover::answer_prove;
pub use tool_run::exit_code;
pub use tool_statement::{TableStatement, ToolConfig, tool_config};
pub use tool_verifier::{Answer, Status, answer_verify};
pub use top::run;
