//! What is proved of chains of compressions as tables of a batch (not in Plonky3): laws as the contracts of functions that compute
//! nothing.
//!
//! The definitions that the contracts cite are in `specs/`: committed tables that are chains (`Committed`).
#![tactic(auto)]

mod committed;

pub use committed::committed_tables_are_chains;
