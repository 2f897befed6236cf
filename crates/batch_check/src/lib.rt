//! The check of a table's constraints, those of its lookups among them, row by row. After Plonky3's `p3-batch-stark`
//! (`check_constraints`).
//!
//! What the check answers is in `specs/` (`BatchCheck`).
#![tactic(auto)]

mod check;

pub use check::{CheckFailure, check_constraints};
