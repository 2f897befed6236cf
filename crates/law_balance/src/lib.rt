//! Lookup balance of an accepted batch over the plain scheme: what its committed tables send, and what the terminals say of it.
//!
//! The functions compute nothing: their contracts are laws of the definitions in `specs/`. These are the rows of a committed
//! table over the base field (`CommittedRows`), what the tables of a batch send (`CommittedSenders`), and what an accepted proof
//! says of it (`Accepted`). Not in Plonky3, whose verifier tests the sum of the terminals at one pair of drawn challenges.
#![tactic(auto)]

mod accepted;
mod data;
mod tables;

pub use accepted::accepted_balances;
pub use data::accepted_batches_balance;
pub use tables::{committed_batches_balance, committed_tables_vanish};
