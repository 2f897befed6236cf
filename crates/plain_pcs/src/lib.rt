//! Commitment schemes without hashing (not in Plonky3): a commitment is what is committed to, or its low-degree extension.
//! So they neither hide nor compress, and a verifier checks values itself. "Own" says of an item that it has no original in
//! Plonky3.
//!
//! `PlainPcs` commits to polynomials, `PlainMmcs` to matrices, and `PlainMultilinear` to multilinear polynomials. The
//! definitions that the contracts cite are in `specs/`.
#![tactic(auto)]

mod commitment;
mod committing;
mod error;
mod evaluating;
mod evaluations;
mod extending;
mod meanings;
mod observing;
mod opening;
mod plain_mmcs;
mod plain_multilinear;
mod plain_pcs;
mod rows;
mod verifying;

pub use commitment::{PlainCommitment, PlainProof, PlainProverData};
pub use committing::has_subgroup_height;
pub use error::{PlainError, PlainProverError};
pub use meanings::{nothing_is_refused_within_bounds, opened_claims_bind};
pub use plain_mmcs::{PlainMmcs, PlainMmcsData, PlainMmcsError, PlainMmcsProof};
pub use plain_multilinear::{
    PlainEvaluations, PlainMultilinear, PlainMultilinearError, PlainMultilinearProverError,
};
pub use plain_pcs::PlainPcs;
