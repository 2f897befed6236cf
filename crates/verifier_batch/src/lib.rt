//! The verifier of a batch of tables: what is opened at the drawn point, and all checks of a proof in order. After Plonky3's
//! `p3-batch-stark` (`verify_batch`).
//!
//! The definitions that the contracts cite are in `specs/`: the checks of the openings (`OpeningChecks`), all checks of a proof in order,
//! and what is drawn along it (`BatchChecks`).
#![tactic(auto)]

mod backend;
pub mod meanings;
mod openings;
mod parts;
mod verifier;

pub use backend::opened_claims;
pub use openings::{check_openings, proof_claims};
pub use parts::shape_bounds;
pub use verifier::verify_batch;
