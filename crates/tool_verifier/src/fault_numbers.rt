//! The numbers of a verifier's refusals, in the order of their fields.
ghost use Rattle.std.specs.Prelude.{◌≡◌, ◌++◌, ◌∷◌, [], OnOk};
ghost use Rattle.tool_verifier.specs.Refusals.{fault_numbers, known, lookup_numbers, periodic_numbers, plain_numbers, shape_numbers, spaced, transcript_numbers, verification_numbers};

use batch_statement::BatchVerificationError;
use batch_transcript::BatchTranscriptFailure;
use commit_core::PeriodicColumnShapeError;
use itoa::Buffer;
use p3_field::Mem;
use p3_lookup::LookupError;
use p3_uni_stark::{InvalidProofShapeError, VerificationError};
use plain_pcs::PlainError;

/// Appends each number after a space, in decimal. On an error a part may stand.
pub fn push_spaced(out: &mut Vec<u8>, numbers: &[usize]) -> Mem<()>
    ensures { OnOk result (out.new.items ≡ out.old.items ++ spaced numbers.now) }
{
    for number in numbers {
        let mut buffer = Buffer::new();
        out.push(b' ')?;
        out.extend_from_slice(buffer.format(*number as u64).as_bytes())?;
    }
    Ok(())
}

// The same of a number that is known, and nothing of none.
fn push_known(out: &mut Vec<u8>, number: Option<usize>) -> Mem<()>
    ensures { OnOk result (out.new.items ≡ out.old.items ++ spaced (known number)) }
{
    match number {
        None => Ok(()),
        Some(n) => push_spaced(out, &[n]),
    }
}

// The numbers of a refusal of the plain scheme.
fn push_plain(out: &mut Vec<u8>, error: &PlainError) -> Mem<()>
    ensures { OnOk result (out.new.items ≡ out.old.items ++ spaced (plain_numbers error.now)) }
{
    match error {
        PlainError::RoundShape { round } => push_spaced(out, &[*round]),
        PlainError::Dimensions { round, matrix } => push_spaced(out, &[*round, *matrix]),
        PlainError::Degree {
            round,
            matrix,
            column,
        } => push_spaced(out, &[*round, *matrix, *column]),
        PlainError::Value {
            round,
            matrix,
            point,
            column,
        } => push_spaced(out, &[*round, *matrix, *point, *column]),
    }
}

// The numbers of a refusal of periodic columns.
fn push_periodic(out: &mut Vec<u8>, error: &PeriodicColumnShapeError) -> Mem<()>
    ensures { OnOk result (out.new.items ≡ out.old.items ++ spaced (periodic_numbers error.now)) }
{
    match error {
        PeriodicColumnShapeError::LengthNotPowerOfTwo { index, length } => push_spaced(
            out,
            &[*index, *length],
        ),
        PeriodicColumnShapeError::LengthNotDividingHeight {
            index,
            length,
            height,
        } => push_spaced(out, &[*index, *length, *height]),
    }
}

// The numbers of a refusal of a proof's shape.
fn push_shape(out: &mut Vec<u8>, error: &InvalidProofShapeError) -> Mem<()>
    ensures { OnOk result (out.new.items ≡ out.old.items ++ spaced (shape_numbers error.now)) }
{
    match error {
        InvalidProofShapeError::InstanceCountMismatch => Ok(()),
        InvalidProofShapeError::DegreeBitsTooSmall { air, minimum, got } => {
            push_between(out, *air, *minimum, *got)
        }
        InvalidProofShapeError::DegreeBitsTooLarge { air, maximum, got } => {
            push_between(out, *air, *maximum, *got)
        }
        InvalidProofShapeError::QuotientDomainTooLarge { air, maximum, got } => {
            push_between(out, *air, *maximum, *got)
        }
        InvalidProofShapeError::TraceNextMismatch { air } => push_known(out, *air),
        InvalidProofShapeError::UnexpectedTraceNext { air } => push_known(out, *air),
        InvalidProofShapeError::UnexpectedPreprocessedValues { air } => push_known(out, *air),
        InvalidProofShapeError::UnexpectedPreprocessedNext { air } => push_known(out, *air),
        InvalidProofShapeError::PublicValuesLengthMismatch { expected, got } => {
            push_spaced(out, &[*expected, *got])
        }
        InvalidProofShapeError::TraceLocalWidthMismatch { air, expected, got } => {
            push_spaced(out, &[*air, *expected, *got])
        }
        InvalidProofShapeError::QuotientChunksCountMismatch { air, expected, got } => {
            push_spaced(out, &[*air, *expected, *got])
        }
        InvalidProofShapeError::QuotientChunkDimensionMismatch { air } => push_spaced(out, &[*air]),
        InvalidProofShapeError::PreprocessedWidthMismatch { air } => push_spaced(out, &[*air]),
        InvalidProofShapeError::PreprocessedMetadataMismatch { air } => push_spaced(out, &[*air]),
        InvalidProofShapeError::MissingPreprocessedValues { air } => push_spaced(out, &[*air]),
        InvalidProofShapeError::QuotientDomainsCountMismatch { air } => push_spaced(out, &[*air]),
    }
}

// A table's number where it is known, a bound, and what was found.
fn push_between(out: &mut Vec<u8>, air: Option<usize>, bound: usize, got: usize) -> Mem<()>
    ensures { OnOk result (out.new.items ≡ out.old.items
        ++ spaced (known air ++ bound ∷ got ∷ [])) }
{
    push_known(out, air)?;
    push_spaced(out, &[bound, got])
}

// The numbers of a refusal of the tables' checks.
fn push_verification(out: &mut Vec<u8>, error: &VerificationError<PlainError>) -> Mem<()>
    ensures { OnOk result (out.new.items ≡ out.old.items
        ++ spaced (verification_numbers error.now)) }
{
    match error {
        VerificationError::InvalidProofShape(e) => push_shape(out, e),
        VerificationError::InvalidOpeningArgument(e) => push_plain(out, e),
        VerificationError::OodPointInDomain => Ok(()),
        VerificationError::OodEvaluationMismatch { index } => push_known(out, *index),
        VerificationError::RandomizationError => Ok(()),
        VerificationError::PeriodicColumn(e) => push_periodic(out, e),
    }
}

// The numbers of a refusal of the lookups' checks.
fn push_lookup(out: &mut Vec<u8>, error: &LookupError) -> Mem<()>
    ensures { OnOk result (out.new.items ≡ out.old.items ++ spaced (lookup_numbers error.now)) }
{
    match error {
        LookupError::MultiplicityBound { bus } => push_spaced(out, &[*bus]),
        LookupError::PermutationWidthMismatch { air, expected } => push_spaced(
            out,
            &[*air, *expected],
        ),
        LookupError::PermutationLengthMismatch { air } => push_spaced(out, &[*air]),
        LookupError::TerminalPresenceMismatch {
            air,
            expected_present,
            got_present,
        } => push_spaced(
            out,
            &[*air, *expected_present as usize, *got_present as usize],
        ),
        LookupError::CommitmentMismatch => Ok(()),
        LookupError::TerminalSum => Ok(()),
    }
}

// The numbers of a refusal of a grinding value.
fn push_transcript(out: &mut Vec<u8>, error: &BatchTranscriptFailure) -> Mem<()>
    ensures { OnOk result (out.new.items ≡ out.old.items ++ spaced (transcript_numbers error.now)) }
{
    match error {
        BatchTranscriptFailure::LookupPowWitness { bits } => push_spaced(out, &[*bits]),
        BatchTranscriptFailure::MissingLookupPowWitness { bits } => push_spaced(out, &[*bits]),
        BatchTranscriptFailure::UnexpectedLookupPowWitness => Ok(()),
        BatchTranscriptFailure::NonCanonicalLookupPowWitness => Ok(()),
        BatchTranscriptFailure::OodPowWitness { bits } => push_spaced(out, &[*bits]),
        BatchTranscriptFailure::NonCanonicalOodPowWitness => Ok(()),
    }
}

/// Appends the numbers of a refusal, each after a space. On an error a part of them may stand.
pub fn push_fault(out: &mut Vec<u8>, error: &BatchVerificationError<PlainError>) -> Mem<()>
    ensures { OnOk result (out.new.items ≡ out.old.items ++ spaced (fault_numbers error.now)) }
{
    match error {
        BatchVerificationError::Verification(e) => push_verification(out, e),
        BatchVerificationError::Lookup(e) => push_lookup(out, e),
        BatchVerificationError::Transcript(e) => push_transcript(out, e),
        BatchVerificationError::OutOfMemory => Ok(()),
    }
}
