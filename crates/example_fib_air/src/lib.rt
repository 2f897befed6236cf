//! The Fibonacci table as an AIR, its trace, and what its rows mean: the first example to copy.
//!
//! The definitions that contracts cite are in `specs/` (`Fib`). `example_fib` proves and verifies the table.
#![tactic(auto)]

mod air;
mod meanings;
mod trace;

pub use air::FibAir;
pub use meanings::fib_rows_mean;
pub use trace::{fib_publics, fib_trace};
