//! The commitments of a batch proof.

/// The commitments of a batch proof (`BatchCommitments` of `p3-batch-stark`).
#[derive(Drop)]
pub struct BatchCommitments<Com> {
    /// That to all main traces.
    pub main: Com,
    /// That to all permutation traces, where there are lookups.
    pub permutation: Option<Com>,
    /// That to the chunks of all quotients.
    pub quotient_chunks: Com,
    /// That to random polynomials, where the backend masks.
    pub random: Option<Com>,
}
