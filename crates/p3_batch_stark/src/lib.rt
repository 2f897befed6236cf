//! The batch STARK, after Plonky3's `p3-batch-stark`: its names in one place. Each stands in a crate of its part, with the
//! contracts that it has here.
//!
//! | Part | Crate |
//! |---|---|
//! | the transcript of a batch | `batch_transcript` |
//! | common data, proofs, and why a proof is refused | `batch_statement` |
//! | the constraints of a table with lookups: degrees, chunk counts, openings | `batch_constraints` |
//! | the check of rows | `batch_check` |
//! | a configuration as plain data, which contracts speak of | `batch_config` |
//! | instances, and the data that a prover is given | `batch_setup` |
//! | the verifier's constraint folder | `verifier_folder` |
//! | what a proof claims of its commitments | `verifier_claims` |
//! | the identity of one table at the drawn point | `verifier_identity` |
//! | whether a batch proof is accepted | `verifier_batch` |
//! | what a prover answers | `prover_answer` |
//! | the prover's constraint folder | `prover_folder` |
//! | the values of a table's quotient, and its chunks | `prover_values` |
//! | the proof of a batch | `prover_batch` |
#![tactic(auto)]

pub use batch_check::{CheckFailure, check_constraints};
pub use batch_config::Settings;
pub use batch_constraints::{
    get_constraint_layout, get_log_num_quotient_chunks, get_log_num_quotient_chunks_for_domain,
    get_max_constraint_degree, get_symbolic_constraints, num_batched_openings,
};
pub use batch_setup::{
    Committed, PreprocessedProverData, ProverData, ProverOnlyData, ProverPhase, SetupData,
    SetupError, StarkInstance, TableInstance,
};
pub use batch_statement::{
    BatchCommitments, BatchOpenedValues, BatchProof, BatchVerificationError, CommonData,
    GlobalPreprocessed, OpenedValuesWithLookups, PreprocessedInstanceMeta, PreprocessedTraces,
    SharedData, TablesProof,
};
pub use batch_transcript::{
    BatchChallenger, BatchProverTranscript, BatchShape, BatchTranscriptFailure,
    BatchVerifierTranscript, GrindStep, TranscriptError,
};
pub use p3_uni_stark::{
    Challenge, Commitment, Domain, OpenedValues, PcsError, PcsProof, PcsProverError,
    StarkGenericConfig, TranscriptVersion, Val, VerificationError,
};
pub use prover_answer::{ProverSettings, ProvingError};
pub use prover_batch::{prove_batch, prove_batch_with_point};
pub use prover_folder::{
    ProverConstraintFolderWithLookups, ProverFolderWithLookups, prover_fold_with_lookups,
};
pub use prover_values::{quotient_chunks, quotient_values};
pub use verifier_batch::verify_batch;
pub use verifier_claims::{OpeningArgumentWithQuotientDomains, commitments_with_opening_points};
pub use verifier_folder::{
    VerifierConstraintFolderWithLookups, VerifierFolderWithLookups, verifier_fold_with_lookups,
};
pub use verifier_identity::{IdentityData, VerifierData};
