//! Tables of BLAKE3's compression in an accepted batch proof over the plain scheme.
//!
//! The function computes nothing: its contract is a law of the definitions of `law_soundness` and `blake3_compress`.
#![tactic(auto)]

mod hashes;

pub use hashes::accepted_hashes_are_compressions;
