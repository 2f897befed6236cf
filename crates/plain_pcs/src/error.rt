//! Why the plain scheme refuses.
use thiserror::Error;

/// Why a plain scheme's verifier refuses claims (not in Plonky3): the first check that fails. Checks go round by round,
/// a round for each commitment, and in a round matrix by matrix.
#[derive(Debug, Drop, PartialEq, Eq, Error)]
pub enum PlainError {
    /// The claims on a commitment aren't one per matrix.
    #[error("round {round}: the claims aren't one per matrix")]
    RoundShape {
        /// The number of the commitment among the claims, from 0.
        round: usize,
    },
    /// A matrix hasn't a row for each point of its extended domain, or there is no domain so large, or a point's claimed
    /// values aren't one per column.
    #[error("round {round}, matrix {matrix}: the dimensions don't fit the claim")]
    Dimensions {
        /// The number of the commitment among the claims, from 0.
        round: usize,
        /// The number of the matrix in its commitment, from 0.
        matrix: usize,
    },
    /// The polynomial of a column has a degree that isn't below the size of the claim's domain.
    #[error("round {round}, matrix {matrix}, column {column}: the degree is too high")]
    Degree {
        /// The number of the commitment among the claims, from 0.
        round: usize,
        /// The number of the matrix in its commitment, from 0.
        matrix: usize,
        /// The number of the column, from 0.
        column: usize,
    },
    /// The polynomial of a column has another value at a point than the claimed one.
    #[error("round {round}, matrix {matrix}, point {point}, column {column}: another value")]
    Value {
        /// The number of the commitment among the claims, from 0.
        round: usize,
        /// The number of the matrix in its commitment, from 0.
        matrix: usize,
        /// The number of the point among the matrix's points, from 0.
        point: usize,
        /// The number of the column, from 0.
        column: usize,
    },
}

/// Why a plain scheme's prover refuses (not in Plonky3).
#[derive(Debug, Drop, PartialEq, Eq, Error)]
pub enum PlainProverError {
    /// The scheme can't commit to this matrix, the first such: it has no columns, its height isn't its domain's size, or its
    /// extension would have more than 2^`TWO_ADICITY` rows. From `commit_ldes`: its height is no power of two up to that.
    #[error("matrix {matrix} can't be committed to")]
    Commit {
        /// Its number, from 0.
        matrix: usize,
    },
    /// The point lists of this request, the first such, aren't one per matrix.
    #[error("request {request}: the point lists aren't one per matrix")]
    Open {
        /// Its number, from 0.
        request: usize,
    },
}
