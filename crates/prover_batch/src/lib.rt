//! The prover of batches: `prove_batch` of Plonky3's `p3-batch-stark`, and its stages along the transcript, between the commitment to the
//! traces and the openings.
//!
//! The definitions that the contracts cite are those of `prover_answer`, `law_honest` and `law_valid`, and what the stages have drawn and made
//! (`Stages`).
#![tactic(auto)]

mod lookups;
mod prover;
mod quotients;
mod stages;
mod transcript;

pub use lookups::{LookupStage, data_of};
pub use prover::{prove_batch, prove_batch_with_point};
pub use quotients::QuotientStage;
pub use stages::{Stages, drawn_stages};
pub use transcript::{Transcript, bound_transcript};
