//! The commitments to a batch's traces and to its permutation columns, and the check of what may be sent on the buses. After Plonky3's
//! `p3-batch-stark` (`prove_batch`).
//!
//! The definitions that the contracts cite are in `specs/`: the table that an instance is (`Instances`), the check of a commitment
//! (`Commitment`), and what is made of a table by itself, and of all tables for lists of challenges (`Columns`).
#![tactic(auto)]

mod bound;
mod columns;
mod commitment;
mod domains;
mod flat;
mod generation;
mod permutation_commitment;
mod table;
mod traces;

pub use bound::check_bound;
pub use columns::{Permutations, permutation_columns};
pub use commitment::commit_matrices;
pub use domains::rows_domain;
pub use permutation_commitment::commit_permutations;
pub use traces::commit_traces;
