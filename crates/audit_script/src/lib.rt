//! The script of a batch's transcript as a reader sees it: each step with its number and its label, a challenge with its coefficients, a grinding
//! value with the answer of the challenger's own test; and what a verifier draws along it.
//!
//! The definitions that the contracts cite are in `specs/`: the lines of the steps (`Steps`).
#![tactic(auto)]

mod phases;
mod script;
mod steps;

pub use script::{FoldedScript, ScriptDraws, fold_script};
