//! Every balanced job of the program's five kinds of tables is valid: an honest prover's proof of it is accepted. It is stated over data
//! alone, and nothing is computed.
//!
//! The definitions are in `specs/`: jobs with their traces, and when they are balanced (`Job`); configurations that serve for them
//! (`Serves`). The functions compute nothing: their contracts are laws of these definitions.
#![tactic(auto)]

pub mod meanings;
pub mod setup;
