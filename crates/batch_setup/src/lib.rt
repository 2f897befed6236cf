//! What a prover of a batch is given: the instances, and the data that it shares with the verifier or keeps for itself. After
//! Plonky3's `p3-batch-stark` (`common`, `prover`).
//!
//! The definitions that the contracts cite are in `specs/`: instances (`Setup`), packed lookups and their budgets (`Packed`),
//! preprocessed traces with their entries (`Preprocessed`), the checks of what prover data is made from (`SetupChecks`) and
//! answers for them (`Verdict`).
#![tactic(auto)]

mod error;
mod instance;
mod lent;
mod lookups;
mod powers;
mod preprocessed;
mod prover_data;
mod setup;

pub use error::{ProverPhase, SetupError};
pub use instance::{StarkInstance, TableInstance, degree_bits, lent_airs};
pub use lent::LentAir;
pub use preprocessed::natural_domain;
pub use prover_data::{Committed, PreprocessedProverData, ProverData, ProverOnlyData, SetupData};
