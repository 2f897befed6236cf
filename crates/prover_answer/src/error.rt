//! Why a batch can't be proved.
ghost use Rattle.std.specs.Prelude.{◌≡◌};
ghost use Rattle.prover_answer.specs.declared.error.ProvingError.TheVariants.{OutOfMemory};

use batch_setup::ProverPhase;
use batch_transcript::GrindStep;
use std::alloc::{AllocError, AllocFailed};
use std::fmt::Display;
use thiserror::Error;

/// Why a batch can't be proved (`ProvingError` of `p3-batch-stark`; that a grinding value is missing is own, since the Rust halts).
/// `E` is the backend's error.
#[derive(Debug, Drop, Error)]
#[error_bound(E: Display)]
pub enum ProvingError<E> {
    /// The backend refuses what it is asked.
    #[error("{phase:?}: {source}")]
    Pcs {
        /// What it was asked.
        phase: ProverPhase,
        /// Why it refuses.
        source: E,
    },
    /// On this bus, and on none before it, the sum of the bounds of all counts, each times its table's height, reaches the order
    /// of the field.
    #[error("bus {bus}: the sum of bounds times heights reaches the order of the field")]
    MultiplicityBound {
        /// The number of the bus.
        bus: usize,
    },
    /// At the drawn challenges a denominator of a lookup is zero: the first, by tables and then by rows.
    #[error("table {instance}: a denominator of row {row} is zero")]
    LookupDenominatorZero {
        /// The table.
        instance: usize,
        /// The row.
        row: usize,
    },
    /// No element of the field passes this grinding.
    #[error("no grinding value passes: {step:?}")]
    WitnessNotFound {
        /// Which grinding it is.
        step: GrindStep,
    },
    /// Out of memory. It may come in place of any other answer.
    #[error("out of memory")]
    OutOfMemory,
}

impl<E> From<AllocError> for ProvingError<E> {
    ghost from_gives = { λ _ r. r ≡ OutOfMemory };

    fn from(_e: AllocError) -> Self {
        ProvingError::OutOfMemory
    }
}

impl<T: Drop, E> From<AllocFailed<T>> for ProvingError<E> {
    ghost from_gives = { λ _ r. r ≡ OutOfMemory };

    fn from(_e: AllocFailed<T>) -> Self {
        ProvingError::OutOfMemory
    }
}
