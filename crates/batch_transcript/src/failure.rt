//! What a transcript refuses.
ghost use Rattle.std.specs.Prelude.{◌≡◌};
ghost use Rattle.batch_transcript.specs.declared.failure.TranscriptError.TheVariants.{OutOfMemory};

use std::alloc::AllocError;
use thiserror::Error;

/// A grinding value that the verifier refuses, as Plonky3's `batch_transcript::BatchTranscriptFailure`.
#[derive(Clone, Copy, Debug, PartialEq, Eq, Error)]
pub enum BatchTranscriptFailure {
    /// The value before the lookups' challenges fails the challenger's test.
    #[error("lookup phase PoW witness does not meet the required {bits} bits")]
    LookupPowWitness {
        /// The bits of the grinding.
        bits: usize,
    },
    /// Instances have lookups, and there is no such value.
    #[error("lookup phase PoW step of {bits} bits arrived with no witness")]
    MissingLookupPowWitness {
        /// The bits of the grinding.
        bits: usize,
    },
    /// No instance has lookups, and there is such a value.
    #[error("a batch with no lookups carries a lookup PoW witness")]
    UnexpectedLookupPowWitness,
    /// The grinding has zero bits, and that value isn't zero.
    #[error("lookup phase PoW witness is nonzero at zero difficulty, expected zero")]
    NonCanonicalLookupPowWitness,
    /// The value before zeta fails the challenger's test.
    #[error("out-of-domain phase PoW witness does not meet the required {bits} bits")]
    OodPowWitness {
        /// The bits of the grinding.
        bits: usize,
    },
    /// That grinding has zero bits, and the value isn't zero.
    #[error("out-of-domain phase PoW witness is nonzero at zero difficulty, expected zero")]
    NonCanonicalOodPowWitness,
}

/// Which grinding it is that no element passes (not in Plonky3).
#[derive(Clone, Copy, Debug)]
pub enum GrindStep {
    /// The one before the lookups' challenges.
    Lookup,
    /// The one before zeta.
    Ood,
}

/// Why a phase of a transcript fails (not in Plonky3).
#[derive(Debug, Drop, Error)]
pub enum TranscriptError {
    /// No element passes the grinding; from the prover's calls alone.
    #[error("no grinding value passes")]
    WitnessNotFound,
    /// A grinding value is refused; from the verifier's calls alone.
    #[error("{0}")]
    Failure(BatchTranscriptFailure),
    /// Memory ran out.
    #[error("out of memory")]
    OutOfMemory,
}

impl From<AllocError> for TranscriptError {
    ghost from_gives = { λ _ e. e ≡ OutOfMemory };

    fn from(_error: AllocError) -> Self {
        TranscriptError::OutOfMemory
    }
}
