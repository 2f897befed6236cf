//! Why prover data can't be made.
ghost use Rattle.std.specs.Prelude.{◌≡◌};
ghost use Rattle.batch_setup.specs.declared.error.SetupError.TheVariants.{OutOfMemory};

use std::alloc::{AllocError, AllocFailed};
use std::fmt::Display;
use thiserror::Error;

/// What a prover asks of the backend, in the order of the work (not in Plonky3: the Rust has a text).
#[derive(Clone, Copy, Debug)]
pub enum ProverPhase {
    /// To commit to the preprocessed traces, before a proof.
    PreprocessingCommitment,
    /// To commit to the main traces.
    TraceCommitment,
    /// To commit to the permutation traces.
    PermutationCommitment,
    /// To give values on a quotient domain.
    QuotientEvaluations,
    /// To commit to the quotients' chunks.
    QuotientCommitment,
    /// To open what was committed.
    Opening,
}

/// Why prover data or instances can't be made (not in Plonky3: the Rust asserts); `E` is the backend's
/// error.
#[derive(Debug, Drop, Error)]
#[error_bound(E: Display)]
pub enum SetupError<E> {
    /// The lists differ in their lengths.
    #[error("the lists differ in their lengths")]
    LengthMismatch,
    /// A preprocessed trace has another height than its table.
    #[error("table {instance}: the preprocessed trace has another height than the table")]
    PreprocessedHeight {
        /// The table.
        instance: usize,
    },
    /// The backend refuses.
    #[error("{phase:?}: {source}")]
    Pcs {
        /// What it was asked.
        phase: ProverPhase,
        /// Why it refuses.
        source: E,
    },
    /// The budget asked for the lookups of a table gives its quotient more chunks than the backend's blowup allows.
    #[error("table {instance}: 2^{log_chunks} quotient chunks at a blowup of 2^{log_blowup}")]
    LookupBudget {
        /// The table.
        instance: usize,
        /// The logarithm of its number of chunks.
        log_chunks: usize,
        /// The logarithm of the blowup.
        log_blowup: usize,
    },
    /// Out of memory. It may come in place of any other answer.
    #[error("out of memory")]
    OutOfMemory,
}

impl<E> From<AllocError> for SetupError<E> {
    ghost from_gives = { λ _ r. r ≡ OutOfMemory };

    fn from(_e: AllocError) -> Self {
        SetupError::OutOfMemory
    }
}

impl<T: Drop, E> From<AllocFailed<T>> for SetupError<E> {
    ghost from_gives = { λ _ r. r ≡ OutOfMemory };

    fn from(_e: AllocFailed<T>) -> Self {
        SetupError::OutOfMemory
    }
}
