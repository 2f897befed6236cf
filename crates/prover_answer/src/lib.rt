//! What a prover of batches answers: its errors, and the definitions that its contracts cite. The functions stand in the crates above.
//!
//! The definitions are in `specs/`: a batch that is proved, with what is committed at each stage (`Batch`); the prover's side of a backend
//! (`Backend`); the checks of a prover in the order of its work, and the proof that it gives where none fails (`Proving`).
#![tactic(auto)]

mod error;
mod settings;

pub use batch_setup::ProverPhase;
pub use batch_transcript::GrindStep;
pub use error::ProvingError;
pub use settings::{Batches, ProverSettings};
