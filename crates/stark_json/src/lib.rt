//! The program for proof files as JSON, over the crates that read, write and verify: `to-json` writes the JSON of a proof file, `from-json` a proof
//! file's lines, and `verify-json` what `verify` answers for the file. What a run does with words, input and output is that of `tool_run`.
#![tactic(auto)]

mod answers;
mod command;
mod exit;
mod laws;
mod top;

pub use exit::run_json_to_exit;
pub use json_proof_files::{JsonError, from_json, to_json};
pub use laws::{one_answer, one_reading};
pub use tool_bytes::{MemorySink, MemorySource, Sink, Source, StdSink, StdSource};
pub use tool_proof_files::{ProofFile, read_proof_file, write_proof_file};
pub use tool_run::exit_code;
pub use tool_verifier::{Answer, Status};
pub use top::run_json;
