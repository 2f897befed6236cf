//! What provers and verifiers of single tables share with those of batches: the configuration, the constraint folders,
//! the errors, the opened values, the recombination of a quotient from its chunks, and counts of openings. After
//! Plonky3's `p3-uni-stark`.
//!
//! The definitions that the contracts cite are in `specs/`.
#![tactic(auto)]

mod config;
mod degree_bits;
mod error;
mod fold_polynomials;
mod folds;
mod kinds;
mod openings;
mod proof;
mod prover_folder;
mod readings;
mod recompose;
mod uniqueness;
mod verifier_folder;

pub use config::{
    Challenge, Challenger, Commitment, Domain, PcsError, PcsProof, PcsProverError, StarkConfig,
    StarkGenericConfig, Val,
};
pub use degree_bits::validate_degree_bits;
pub use error::{InvalidProofShapeError, VerificationError};
pub use fold_polynomials::{a_fold_is_a_polynomial, a_fold_is_a_value_at_its_challenge};
pub use folds::{ProverConstraintFolder, VerifierConstraintFolder, prover_fold, verifier_fold};
pub use kinds::fold_by_kinds;
pub use openings::{OpeningShape, StarkOpeningLayout, num_batched_openings};
pub use proof::{OpenedValues, PreprocessedOpenedValues};
pub use prover_folder::ProverFolder;
pub use readings::folders_have_the_one_reading;
pub use recompose::{are_all_disjoint, recompose_quotient_from_chunks, recomposed_quotient};
pub use transcript_version::TranscriptVersion;
pub use uniqueness::{powers_are_in_order, recombined_on_domains, split_domains_are_disjoint};
pub use verifier_folder::VerifierFolder;
