//! Why a batch proof is refused.
ghost use Rattle.std.specs.Prelude.{◌≡◌};
ghost use Rattle.batch_statement.specs.declared.error.BatchVerificationError.TheVariants.{Verification, Lookup, Transcript, OutOfMemory};
ghost use Rattle.p3_uni_stark.specs.declared.error.VerificationError.TheVariants.{InvalidProofShape, PeriodicColumn};

use batch_transcript::BatchTranscriptFailure;
use commit_core::PeriodicColumnShapeError;
use p3_lookup::LookupError;
use p3_uni_stark::{InvalidProofShapeError, VerificationError};
use std::alloc::{AllocError, AllocFailed};
use std::fmt::Display;
use thiserror::Error;

/// Why a batch proof isn't accepted (`BatchVerificationError` of `p3-batch-stark`); `E` is the backend's error.
#[derive(Debug, Drop, Error)]
#[error_bound(E: Display)]
pub enum BatchVerificationError<E> {
    /// A check of the tables fails.
    #[error("{0}")]
    Verification(VerificationError<E>),
    /// A check of the lookups fails.
    #[error("{0}")]
    Lookup(LookupError),
    /// A grinding value fails.
    #[error("{0}")]
    Transcript(BatchTranscriptFailure),
    /// Out of memory. It may come in place of any other answer.
    #[error("out of memory")]
    OutOfMemory,
}

impl<E> From<VerificationError<E>> for BatchVerificationError<E> {
    ghost from_gives = { λ e r. r ≡ Verification e };

    fn from(e: VerificationError<E>) -> Self {
        BatchVerificationError::Verification(e)
    }
}

impl<E> From<LookupError> for BatchVerificationError<E> {
    ghost from_gives = { λ e r. r ≡ Lookup e };

    fn from(e: LookupError) -> Self {
        BatchVerificationError::Lookup(e)
    }
}

impl<E> From<BatchTranscriptFailure> for BatchVerificationError<E> {
    ghost from_gives = { λ e r. r ≡ Transcript e };

    fn from(e: BatchTranscriptFailure) -> Self {
        BatchVerificationError::Transcript(e)
    }
}

impl<E> From<InvalidProofShapeError> for BatchVerificationError<E> {
    ghost from_gives = { λ e r. r ≡ Verification (InvalidProofShape e) };

    fn from(e: InvalidProofShapeError) -> Self {
        BatchVerificationError::Verification(VerificationError::InvalidProofShape(e))
    }
}

impl<E> From<PeriodicColumnShapeError> for BatchVerificationError<E> {
    ghost from_gives = { λ e r. r ≡ Verification (PeriodicColumn e) };

    fn from(e: PeriodicColumnShapeError) -> Self {
        BatchVerificationError::Verification(VerificationError::PeriodicColumn(e))
    }
}

impl<E> From<AllocError> for BatchVerificationError<E> {
    ghost from_gives = { λ _ r. r ≡ OutOfMemory };

    fn from(_e: AllocError) -> Self {
        BatchVerificationError::OutOfMemory
    }
}

impl<T: Drop, E> From<AllocFailed<T>> for BatchVerificationError<E> {
    ghost from_gives = { λ _ r. r ≡ OutOfMemory };

    fn from(_e: AllocFailed<T>) -> Self {
        BatchVerificationError::OutOfMemory
    }
}
