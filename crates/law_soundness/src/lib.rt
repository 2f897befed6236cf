//! Soundness of the batch verifier over the plain scheme: what an accepted proof says of the polynomials that are committed to.
//!
//! The functions compute nothing: their contracts are laws of the definitions in `specs/`. These are the polynomials of a commitment
//! (`Commitment`), configurations over the plain scheme (`PlainSetting`), the tables of a batch as a proof commits to them
//! (`CommittedBatch`), what an accepted proof means of them (`Meaning`), opened values that are theirs (`OpenedBatch`), how many
//! challenges may be unlucky (`UnluckyCounts`), and how a swap table ends (`Swapped`). After Plonky3's `p3-batch-stark`
//! (`verify_batch`), whose verifier tests one identity of these polynomials at one drawn point.
#![tactic(auto)]

mod counts;
mod data;
mod soundness;
mod swaps;

pub use counts::few_challenges_are_unlucky;
pub use data::{accepted_batches_hold, few_are_unlucky};
pub use soundness::{PlainConfig, accepted_holds};
pub use swaps::accepted_swaps_end;
