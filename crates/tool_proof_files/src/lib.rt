//! The program's proof files: a version, the tables that are stated, and a batch proof of them.
//!
//! The definitions that contracts cite are in `specs/`: a file's limits and its numbers (`Files`).
#![tactic(auto)]

mod file;
mod table;

pub use file::{ProofFile, WholeFile, read_proof_file, version_number, write_proof_file};
pub use table::StatedTable;
