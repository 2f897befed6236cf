//! The check of a table's constraints row by row, and the builder that evaluates them at a row. After Plonky3's `p3-air`
//! (`check_constraints`, `DebugConstraintBuilder`).
//!
//! What the check answers is in `specs/` (`Checked`), and what the builder has for expressions (`Values`).
#![tactic(auto)]

mod check;
mod debug;
mod rows;

pub use check::{CheckFailure, check_constraints};
pub use debug::DebugConstraintBuilder;
pub use rows::{has_height, nonzero_places, periodic_at};
