//! Equations that an AIR asks for on some rows alone: on the first, on the last, or on each but the last.
//!
//! The definitions that contracts cite are in `specs/` (`Equation`). After Plonky3's `p3-air` (`when_first_row`, `when_last_row`,
//! `when_transition`, `assert_eq`).
#![tactic(auto)]

mod equations;

pub use equations::{assert_cells_eq_when, assert_eq_when, assert_sum_when};
