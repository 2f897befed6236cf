//! What is drawn along a batch proof, and the checks of its grinding values. A verifier does this once the proof's shape is
//! checked, and before it looks at what is opened. After Plonky3's `p3-batch-stark` (`verify_batch`, `transcript`).
//!
//! The definitions that the contracts cite are in `specs/`: the shape that statement and configuration fix, what statement and
//! proof give to the script, the draws, and the checks (`Draws`).
#![tactic(auto)]

mod draws;
pub mod meanings;
mod phases;
mod shapes;
mod terminals;

pub use draws::{Drawn, check_draws};
pub use shapes::{batch_shape, preprocessed_commitment};
pub use terminals::terminals_there;
