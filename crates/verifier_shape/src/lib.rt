//! The checks of a batch proof's shape, which come before any challenge is drawn: counts, presence, degree bits, bounds on
//! multiplicities, and the lengths of what is opened. After Plonky3's `p3-batch-stark` (`verify_batch`).
//!
//! The definitions that the contracts cite are in `specs/`: the checks in order (`ShapeChecks`), and a verifier's answer for
//! a list of checks (`Verdict`).
#![tactic(auto)]

mod bounds;
mod counts;
mod lengths;
mod opened;
mod powers;
mod sizes;
mod tables;
mod whole;

pub use bounds::check_bounds;
pub use counts::{are_counted, check_counts, check_permutation, is_randomized};
pub use lengths::{
    check_chunk_count, check_chunk_lengths, check_permutation_width, check_preprocessed_next,
    check_preprocessed_width, check_public_values, check_random, check_terminal_presence,
    check_trace_local, check_trace_next, check_unpreprocessed,
};
pub use opened::check_opened;
pub use sizes::size_at;
pub use whole::{ShapeBounds, check_shape};
