//! What a verifier of batches checks of a proof of one swap table, in plain terms, as a law.
//!
//! The one function computes nothing. The definitions that its contract cites are in `specs/`: the shape of such a proof
//! (`SwapShape`) and the list of its checks (`SwapChecks`).
#![tactic(auto)]

mod laws;

pub use laws::swap_proofs_are_checked_alike;
