//! Each name that `p3_batch_stark` shows, as a caller imports it.

pub use p3_batch_stark::{
    BatchChallenger, BatchCommitments, BatchOpenedValues, BatchProof, BatchProverTranscript,
    BatchShape, BatchTranscriptFailure, BatchVerificationError, BatchVerifierTranscript, Challenge,
    CheckFailure, Commitment, Committed, CommonData, Domain, GlobalPreprocessed, GrindStep,
    IdentityData, OpenedValues, OpenedValuesWithLookups, OpeningArgumentWithQuotientDomains,
    PcsError, PcsProof, PcsProverError, PreprocessedInstanceMeta, PreprocessedProverData,
    PreprocessedTraces, ProverConstraintFolderWithLookups, ProverData, ProverFolderWithLookups,
    ProverOnlyData, ProverPhase, ProverSettings, ProvingError, Settings, SetupData, SetupError,
    SharedData, StarkGenericConfig, StarkInstance, TableInstance, TablesProof, TranscriptError,
    TranscriptVersion, Val, VerificationError, VerifierConstraintFolderWithLookups, VerifierData,
    VerifierFolderWithLookups, check_constraints, commitments_with_opening_points,
    get_constraint_layout, get_log_num_quotient_chunks, get_log_num_quotient_chunks_for_domain,
    get_max_constraint_degree, get_symbolic_constraints, num_batched_openings, prove_batch,
    prove_batch_with_point, prover_fold_with_lookups, quotient_chunks, quotient_values,
    verifier_fold_with_lookups, verify_batch,
};
