//! Why a proof is refused.

use commit_core::PeriodicColumnShapeError;
use std::fmt::Display;
use thiserror::Error;

/// A count, a width, a length or a presence in a proof that its statement doesn't allow (`InvalidProofShapeError` of
/// `p3-uni-stark`). `air` is the number of the table in its batch, and None where a single table is proved.
#[derive(Debug, Drop, Error)]
pub enum InvalidProofShapeError {
    /// The lists of the batch differ in their numbers of tables.
    #[error("the lists of a batch differ in their numbers of tables")]
    InstanceCountMismatch,
    /// The degree bits are too few.
    #[error("table {air:?}: degree bits {got} are below {minimum}")]
    DegreeBitsTooSmall {
        /// The number of the table in its batch, or None where one table is proved alone.
        air: Option<usize>,
        /// The least degree bits: a logarithm of rows.
        minimum: usize,
        /// The degree bits that were found.
        got: usize,
    },
    /// The degree bits are too many.
    #[error("table {air:?}: degree bits {got} are above {maximum}")]
    DegreeBitsTooLarge {
        /// The number of the table in its batch, or None where one table is proved alone.
        air: Option<usize>,
        /// The greatest degree bits: a logarithm of rows.
        maximum: usize,
        /// The degree bits that were found.
        got: usize,
    },
    /// The quotient domain would be too large.
    #[error("table {air:?}: quotient domain bits {got} are above {maximum}")]
    QuotientDomainTooLarge {
        /// The number of the table in its batch, or None where one table is proved alone.
        air: Option<usize>,
        /// The greatest logarithm of a domain's size.
        maximum: usize,
        /// The logarithm that is too great, of the number of chunks or of the quotient domain's size. It stops at the
        /// greatest `usize`.
        got: usize,
    },
    /// The next row's opened values are missing, or too few or too many.
    #[error("table {air:?}: the next row's opened values don't fit the declared columns")]
    TraceNextMismatch {
        /// The number of the table in its batch, or None where one table is proved alone.
        air: Option<usize>,
    },
    /// The next row is opened, though no column of it is declared.
    #[error("table {air:?}: the next row is opened and isn't declared")]
    UnexpectedTraceNext {
        /// The number of the table in its batch, or None where one table is proved alone.
        air: Option<usize>,
    },
    /// Preprocessed values are opened of a table that has none.
    #[error("table {air:?}: preprocessed values are opened of a table without any")]
    UnexpectedPreprocessedValues {
        /// The number of the table in its batch, or None where one table is proved alone.
        air: Option<usize>,
    },
    /// The next preprocessed row is opened, though no column of it is declared.
    #[error("table {air:?}: the next preprocessed row is opened and isn't declared")]
    UnexpectedPreprocessedNext {
        /// The number of the table in its batch, or None where one table is proved alone.
        air: Option<usize>,
    },
    /// The number of public values isn't the declared one.
    #[error("{got} public values in place of {expected}")]
    PublicValuesLengthMismatch {
        /// How many public values the statement asks for.
        expected: usize,
        /// How many public values were found.
        got: usize,
    },
    /// The number of opened values of the current row isn't the table's width.
    #[error("table {air}: {got} opened values of a row of {expected}")]
    TraceLocalWidthMismatch {
        /// The number of the table in its batch.
        air: usize,
        /// How many values the statement asks for.
        expected: usize,
        /// How many values were found.
        got: usize,
    },
    /// The number of quotient chunks isn't the expected one.
    #[error("table {air}: {got} quotient chunks in place of {expected}")]
    QuotientChunksCountMismatch {
        /// The number of the table in its batch.
        air: usize,
        /// How many chunks the statement asks for.
        expected: usize,
        /// How many chunks were found.
        got: usize,
    },
    /// A quotient chunk hasn't as many values as the challenge field has dimensions.
    #[error("table {air}: a quotient chunk of another length than the challenge field's dimension")]
    QuotientChunkDimensionMismatch {
        /// The number of the table in its batch.
        air: usize,
    },
    /// The opened preprocessed values are missing, or too few or too many.
    #[error("table {air}: the opened preprocessed values don't fit the declared width")]
    PreprocessedWidthMismatch {
        /// The number of the table in its batch.
        air: usize,
    },
    /// The preprocessed trace was committed for another height, or its width is given as zero.
    #[error("table {air}: the preprocessed trace was committed for another height")]
    PreprocessedMetadataMismatch {
        /// The number of the table in its batch.
        air: usize,
    },
    /// The preprocessed values aren't opened, or those of a declared next row aren't.
    #[error("table {air}: the preprocessed values aren't opened")]
    MissingPreprocessedValues {
        /// The number of the table in its batch.
        air: usize,
    },
    /// The numbers of quotient chunks and of their domains differ.
    #[error("table {air}: the numbers of quotient chunks and of their domains differ")]
    QuotientDomainsCountMismatch {
        /// The number of the table in its batch.
        air: usize,
    },
}

/// Why a proof isn't accepted (`VerificationError` of `p3-uni-stark`); `E` is the backend's error.
#[derive(Debug, Drop, Error)]
#[error_bound(E: Display)]
pub enum VerificationError<E> {
    /// A count, a width, a length or a presence is wrong.
    #[error("{0}")]
    InvalidProofShape(InvalidProofShapeError),
    /// The backend refuses the opening.
    #[error("invalid opening argument: {0}")]
    InvalidOpeningArgument(E),
    /// The drawn point lies in a trace domain.
    #[error("the drawn point lies in a trace domain")]
    OodPointInDomain,
    /// The folded constraints aren't the vanishing value times the quotient at the drawn point.
    #[error("the identity fails at the drawn point, of table {index:?}")]
    OodEvaluationMismatch {
        /// The number of the table in its batch, or None where one table is proved alone.
        index: Option<usize>,
    },
    /// Something random is there that the backend doesn't ask for, or is missing, or has another length.
    #[error("the random openings aren't those that the backend asks for")]
    RandomizationError,
    /// A periodic column doesn't fit the height.
    #[error("{0}")]
    PeriodicColumn(PeriodicColumnShapeError),
}
