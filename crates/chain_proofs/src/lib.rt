//! Proofs of chains of BLAKE3 compressions over the program's configuration (not in Plonky3): the honest proof that blocks lead from one
//! chaining value to another, its verifier, and what an accepted proof says of the rows that it commits to.
//!
//! The definitions that contracts cite are in `specs/` (`Statement`): what is stated of a chain, the batch that is proved, what comes of
//! proving it, and what an accepted proof means.
#![tactic(auto)]

mod meaning;
mod prove;
mod verify;

pub use meaning::accepted_means;
pub use prove::prove_chain;
pub use verify::{has_stated_height, verify_chain};
