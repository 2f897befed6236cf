//! The names of a verifier's refusals.
ghost use Rattle.std.specs.Prelude.{◌≡◌, ◌≢◌, MatchOption};
ghost use Rattle.tool_verifier.specs.Refusals.{fault_name, lookup_name, periodic_name, plain_name, shape_name, transcript_name, verification_name};

use batch_statement::BatchVerificationError;
use batch_transcript::BatchTranscriptFailure;
use commit_core::PeriodicColumnShapeError;
use p3_lookup::LookupError;
use p3_uni_stark::{InvalidProofShapeError, VerificationError};
use plain_pcs::PlainError;

// The name of a refusal of the plain scheme, after the name of the openings' check.
fn plain_name(error: &PlainError) -> &'static [u8]
    ensures { result.now ≡ plain_name error.now }
{
    match error {
        PlainError::RoundShape { .. } => b"InvalidOpeningArgument RoundShape",
        PlainError::Dimensions { .. } => b"InvalidOpeningArgument Dimensions",
        PlainError::Degree { .. } => b"InvalidOpeningArgument Degree",
        PlainError::Value { .. } => b"InvalidOpeningArgument Value",
    }
}

// The name of a refusal of periodic columns, after the name of their check.
fn periodic_name(error: &PeriodicColumnShapeError) -> &'static [u8]
    ensures { result.now ≡ periodic_name error.now }
{
    match error {
        PeriodicColumnShapeError::LengthNotPowerOfTwo { .. } =>
            b"PeriodicColumn LengthNotPowerOfTwo",
        PeriodicColumnShapeError::LengthNotDividingHeight { .. } => {
            b"PeriodicColumn LengthNotDividingHeight"
        }
    }
}

// The name of a refusal of a proof's shape.
fn shape_name(error: &InvalidProofShapeError) -> &'static [u8]
    ensures { result.now ≡ shape_name error.now }
{
    match error {
        InvalidProofShapeError::InstanceCountMismatch => b"InstanceCountMismatch",
        InvalidProofShapeError::DegreeBitsTooSmall { .. } => b"DegreeBitsTooSmall",
        InvalidProofShapeError::DegreeBitsTooLarge { .. } => b"DegreeBitsTooLarge",
        InvalidProofShapeError::QuotientDomainTooLarge { .. } => b"QuotientDomainTooLarge",
        InvalidProofShapeError::TraceNextMismatch { .. } => b"TraceNextMismatch",
        InvalidProofShapeError::UnexpectedTraceNext { .. } => b"UnexpectedTraceNext",
        InvalidProofShapeError::UnexpectedPreprocessedValues { .. } =>
            b"UnexpectedPreprocessedValues",
        InvalidProofShapeError::UnexpectedPreprocessedNext { .. } => b"UnexpectedPreprocessedNext",
        InvalidProofShapeError::PublicValuesLengthMismatch { .. } => b"PublicValuesLengthMismatch",
        InvalidProofShapeError::TraceLocalWidthMismatch { .. } => b"TraceLocalWidthMismatch",
        InvalidProofShapeError::QuotientChunksCountMismatch { .. } =>
            b"QuotientChunksCountMismatch",
        InvalidProofShapeError::QuotientChunkDimensionMismatch { .. } => {
            b"QuotientChunkDimensionMismatch"
        }
        InvalidProofShapeError::PreprocessedWidthMismatch { .. } => b"PreprocessedWidthMismatch",
        InvalidProofShapeError::PreprocessedMetadataMismatch { .. } =>
            b"PreprocessedMetadataMismatch",
        InvalidProofShapeError::MissingPreprocessedValues { .. } => b"MissingPreprocessedValues",
        InvalidProofShapeError::QuotientDomainsCountMismatch { .. } =>
            b"QuotientDomainsCountMismatch",
    }
}

// The name of a refusal of the tables' checks.
fn verification_name(error: &VerificationError<PlainError>) -> &'static [u8]
    ensures { result.now ≡ verification_name error.now }
{
    match error {
        VerificationError::InvalidProofShape(e) => shape_name(e),
        VerificationError::InvalidOpeningArgument(e) => plain_name(e),
        VerificationError::OodPointInDomain => b"OodPointInDomain",
        VerificationError::OodEvaluationMismatch { .. } => b"OodEvaluationMismatch",
        VerificationError::RandomizationError => b"RandomizationError",
        VerificationError::PeriodicColumn(e) => periodic_name(e),
    }
}

// The name of a refusal of the lookups' checks.
fn lookup_name(error: &LookupError) -> &'static [u8]
    ensures { result.now ≡ lookup_name error.now }
{
    match error {
        LookupError::MultiplicityBound { .. } => b"MultiplicityBound",
        LookupError::PermutationWidthMismatch { .. } => b"PermutationWidthMismatch",
        LookupError::PermutationLengthMismatch { .. } => b"PermutationLengthMismatch",
        LookupError::TerminalPresenceMismatch { .. } => b"TerminalPresenceMismatch",
        LookupError::CommitmentMismatch => b"CommitmentMismatch",
        LookupError::TerminalSum => b"TerminalSum",
    }
}

// The name of a refusal of a grinding value.
fn transcript_name(error: &BatchTranscriptFailure) -> &'static [u8]
    ensures { result.now ≡ transcript_name error.now }
{
    match error {
        BatchTranscriptFailure::LookupPowWitness { .. } => b"LookupPowWitness",
        BatchTranscriptFailure::MissingLookupPowWitness { .. } => b"MissingLookupPowWitness",
        BatchTranscriptFailure::UnexpectedLookupPowWitness => b"UnexpectedLookupPowWitness",
        BatchTranscriptFailure::NonCanonicalLookupPowWitness => b"NonCanonicalLookupPowWitness",
        BatchTranscriptFailure::OodPowWitness { .. } => b"OodPowWitness",
        BatchTranscriptFailure::NonCanonicalOodPowWitness => b"NonCanonicalOodPowWitness",
    }
}

/// The name of a refusal; None exactly where it is no refusal, but out of memory.
pub fn fault_name(error: &BatchVerificationError<PlainError>) -> Option<&'static [u8]>
    ensures { MatchOption result (error.now ≡ BatchVerificationError.OutOfMemory)
        (λ n. (error.now ≢ BatchVerificationError.OutOfMemory) × (n.now ≡ fault_name error.now)) }
{
    match error {
        BatchVerificationError::Verification(e) => Some(verification_name(e)),
        BatchVerificationError::Lookup(e) => Some(lookup_name(e)),
        BatchVerificationError::Transcript(e) => Some(transcript_name(e)),
        BatchVerificationError::OutOfMemory => None,
    }
}
