//! Why there is no trace.
ghost use Rattle.std.specs.Prelude.{◌≡◌};
ghost use Rattle.blake3_compress.specs.declared.error.TraceError.TheVariants.{OutOfMemory};

use std::alloc::AllocError;
use thiserror::Error;

/// Why there is no trace of some compressions (not in Plonky3). Each generator says which of these it
/// answers, and when.
#[derive(Debug, Drop, Error)]
pub enum TraceError {
    /// One and one isn't zero in the field, where the table needs that.
    #[error("the field is not of characteristic two")]
    WrongCharacteristic,
    /// There is no compression.
    #[error("there is no input")]
    NoInput,
    /// The number of compressions is no power of two.
    #[error("the number of rows is no power of two")]
    NotPowerOfTwo,
    /// The cells, with the room that was asked for, are more than `usize` counts.
    #[error("the trace is too long")]
    TooLong,
    /// Memory ran out.
    #[error("out of memory")]
    OutOfMemory,
}

impl From<AllocError> for TraceError {
    ghost from_gives = { λ _ e. e ≡ OutOfMemory };

    fn from(_error: AllocError) -> TraceError {
        TraceError::OutOfMemory
    }
}
