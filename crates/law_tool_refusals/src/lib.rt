//! Which refusals of a batch proof the program's `verify` gives, as a law.
//!
//! The one function computes nothing. The definitions that its contract cites are in `specs/`: the refusals that may come (`Possible`), and the lines that
//! say so (`Lines`).
#![tactic(auto)]

mod laws;

pub use laws::verify_refuses_only_so;
