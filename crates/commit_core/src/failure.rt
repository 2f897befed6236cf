//! What a call of a commitment scheme answers where it doesn't succeed.
ghost use Rattle.std.specs.Prelude.{◌≡◌};
ghost use Rattle.commit_core.specs.declared.failure.PcsFailure.TheVariants.{OutOfMemory};

use std::alloc::{AllocError, AllocFailed};

/// Why a call of a commitment scheme gave nothing (not in Plonky3: the Rust has `E` alone, since it stops where memory
/// runs out).
#[derive(Debug, Drop)]
pub enum PcsFailure<E> {
    /// Memory ran out. It may come in place of any other answer.
    OutOfMemory,
    /// The scheme refuses, for this cause.
    Refused(E),
}

impl<E> From<AllocError> for PcsFailure<E> {
    ghost from_gives = { λ _ e. e ≡ OutOfMemory };

    fn from(_e: AllocError) -> Self {
        PcsFailure::OutOfMemory
    }
}

impl<T: Drop, E> From<AllocFailed<T>> for PcsFailure<E> {
    ghost from_gives = { λ _ e. e ≡ OutOfMemory };

    fn from(_e: AllocFailed<T>) -> Self {
        PcsFailure::OutOfMemory
    }
}
