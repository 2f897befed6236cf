//! Tables of any AIRs over the program's configuration: one call proves them, and one verifies the proof.
//!
//! The definitions that contracts cite are in `specs/` (`Airs`): what prover and verifier share of the tables, what is stated of them, and
//! the batch that is proved.
#![tactic(auto)]

mod heights;
mod prove;
mod setup;
mod verify;

pub use heights::check_height;
pub use prove::{prove_airs, prove_airs_with_point};
pub use verify::verify_airs;
