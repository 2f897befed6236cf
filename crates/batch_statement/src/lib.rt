//! What a batch proof is about, and what it consists of: the data that prover and verifier share, the proof, and why one is
//! refused. After Plonky3's `p3-batch-stark` (`common`, `proof`, `error`).
//!
//! The definitions that the contracts cite are in `specs/`: common data, statements and well-formed common data
//! (`Statement`), the proof as data (`Proof`), what private functions compute (`Fitting`).
#![tactic(auto)]

mod air_widths;
mod commitments;
mod common;
mod entries;
mod error;
mod fits;
mod preprocessed;
mod proof;
mod reads;
mod widths;

pub use air_widths::airs_have_one_width;
pub use commitments::BatchCommitments;
pub use common::{CommonData, SharedData};
pub use error::BatchVerificationError;
pub use preprocessed::{GlobalPreprocessed, PreprocessedInstanceMeta, PreprocessedTraces};
pub use proof::{BatchOpenedValues, BatchProof, OpenedValuesWithLookups, TablesProof};
pub use widths::have_one_width;
