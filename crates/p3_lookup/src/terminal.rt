//! Terminals, and the errors of lookups.
ghost use Rattle.std.specs.Prelude.{◌≡◌};
ghost use Rattle.p3_lookup.specs.declared.terminal.GenerateError.TheVariants.{OutOfMemory};

use std::alloc::{AllocError, AllocFailed};
use thiserror::Error;

/// The value with which a table's running sum ends (`p3_lookup::LookupTerminal`).
#[derive(Clone, Copy)]
pub struct LookupTerminal<EF>(pub EF);

/// What is wrong with the lookups of a batch (`p3_lookup::LookupError`).
#[derive(Debug, Drop, Error)]
pub enum LookupError {
    /// On this bus, and on none before it, the sum of the bounds of all counts, each times its table's height, reaches the
    /// order of the field.
    #[error("bus {bus}: the sum of bounds times heights reaches the order of the field")]
    MultiplicityBound {
        /// The number of the bus.
        bus: usize,
    },
    /// A permutation row of this table has another length.
    #[error("table {air} should have {expected} permutation values")]
    PermutationWidthMismatch {
        /// The table.
        air: usize,
        /// How many values are expected.
        expected: usize,
    },
    /// The permutation rows of this table differ in length.
    #[error("the permutation rows of table {air} differ in length")]
    PermutationLengthMismatch {
        /// The table.
        air: usize,
    },
    /// A terminal is present where none is expected, or absent where one is.
    #[error("table {air}: a terminal is expected: {expected_present}, present: {got_present}")]
    TerminalPresenceMismatch {
        /// The table.
        air: usize,
        /// Whether one is expected.
        expected_present: bool,
        /// Whether one is present.
        got_present: bool,
    },
    /// A permutation commitment is present where none is expected, or absent where one is.
    #[error("the permutation commitment is present where it should not be, or absent")]
    CommitmentMismatch,
    /// The terminals that are present don't sum to zero.
    #[error("the lookup terminals don't sum to zero")]
    TerminalSum,
}

/// Why permutation columns couldn't be generated (not in Plonky3).
#[derive(Debug, Drop, Error)]
pub enum GenerateError {
    /// The first denominator that is zero.
    #[error("in row {row} the denominator of tuple {tuple} of lookup {lookup} is zero")]
    DenominatorZero {
        /// Its row.
        row: usize,
        /// Its lookup.
        lookup: usize,
        /// Its tuple in the lookup.
        tuple: usize,
    },
    /// Out of memory.
    #[error("out of memory")]
    OutOfMemory,
}

impl From<AllocError> for GenerateError {
    ghost from_gives = { λ _ e. e ≡ OutOfMemory };

    fn from(_error: AllocError) -> GenerateError {
        GenerateError::OutOfMemory
    }
}

impl<T: Drop> From<AllocFailed<T>> for GenerateError {
    ghost from_gives = { λ _ e. e ≡ OutOfMemory };

    fn from(_error: AllocFailed<T>) -> GenerateError {
        GenerateError::OutOfMemory
    }
}
