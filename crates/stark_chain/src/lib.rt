//! The program of chains (not in Plonky3): its jobs and proof files as texts, its commands `prove` and `verify`, and its top call. Chains are
//! proved and verified by `chain_proofs`; what a run does with words, input and output is that of `tool_run`.
//!
//! The definitions that contracts cite are in `specs/`: the texts (`Texts`), and what the commands answer (`Answer`).
#![tactic(auto)]

mod answers;
mod command;
mod exit;
mod file;
mod job;
mod laws;
mod prove;
mod top;
mod verify;
mod words;

pub use command::ChainCommand;
pub use exit::run_chain_to_exit;
pub use file::{ChainFile, WholeChainFile, read_chain_file, write_chain_file};
pub use job::{ChainJob, WholeChainJob, read_chain_job};
pub use laws::one_answer;
pub use prove::answer_prove;
pub use tool_bytes::{MemorySink, MemorySource, Sink, Source, StdSink, StdSource};
pub use tool_run::exit_code;
pub use tool_verifier::{Answer, Status};
pub use top::run_chain;
pub use verify::answer_verify;
